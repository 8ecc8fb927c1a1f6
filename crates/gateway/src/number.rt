//! The numbers of the calls that SETUPs make: the transactions of the INVITEs that go out.
ghost use Rattle.std.specs.Prelude.{◌≡◌};
ghost use Rattle.calls.specs.Rules.{following};

/// The number of the next call, after a step that used up one or did not. None is used twice: after the last there is none.
pub fn following(numbered: bool, next: Option<u64>) -> Option<u64>
    ensures one_more_until_the_last { result ≡ following numbered next }
{
    if numbered {
        next.and_then(|number| number.checked_add(1))
    } else {
        next
    }
}
