//! The words of a line.
ghost use Rattle.std.specs.Prelude.{◌≡◌, IfOk, map};
ghost use Rattle.script_words.specs.Words.{words_of};

use std::alloc::{AllocError, Global};

/// The words of a line, in their order, without the blanks between, before and behind them. Refused: want of memory alone.
pub fn words_of(heap: Global, line: &str) -> Result<Vec<&str>, AllocError>
    ensures all_between_blanks { IfOk result (λ words. map (λ word. word.now) words.items ≡ words_of line.now) }
{
    line.split_ascii_whitespace().collect(heap)
}
