ghost use Rattle.std.specs.Prelude.{◌≡◌, length, replicate, Some, None, MatchBool, MatchResult, is_ok, slice_index_or, slice_set};
ghost use Rattle.calls.specs.Rules.{seek, FreePlace};
ghost use Rattle.call_table.specs.Keys.{keyed, hits, found_at, Within};
ghost use Rattle.call_table.specs.Tokens.{token_of};
ghost use Rattle.call_table.specs.Records.{holding, held, is_holding, admits, answered, after_entering, Enters, MayChange, left, after_changing};

use crate::key::{Key, is_keyed};
use crate::token::Token;
use call_states::is_over;
use calls::{Call, Found};

fn holding(slot: Option<Call>) -> Option<u8>
    ensures answers_the_channel_held { result ≡ holding slot }
{
    let call = slot?;
    (!is_over(call.exchange)).then_some(call.channel)
}

fn is_holding(call: Call, channel: u8) -> bool
    ensures yes_exactly_if_it_holds_it { result ≡ is_holding channel call }
{
    !is_over(call.exchange) && call.channel == channel
}

// Is no channel held without its token, where the record of a place changes and this token comes in, or none?
fn enters(before: Option<Call>, after: Option<Call>, token: &Option<Token>) -> bool
    ensures yes_exactly_if_so { MatchBool result (Enters before after token.now) (Enters before after token.now → ⊥) }
{
    let afterwards = holding(after);
    match token {
        Some(token) => afterwards == Some(token.channel),
        None => afterwards.is_none() || afterwards == holding(before),
    }
}

// The token that comes out where the record of a place changes and this token is entered with it, or none.
fn left(before: Option<Call>, after: Option<Call>, token: Option<Token>) -> Option<Token>
    ensures of_the_channel_left { result ≡ left before after token }
{
    // Stays a match: with no `Drop`, a token is spent only by taking it apart.
    let goes_on = match token {
        Some(Token { channel: _ }) => false,
        None => holding(after).is_some(),
    };
    if goes_on {
        return None;
    }
    holding(before).map(|channel| Token { channel })
}

// Is it a place with a call that the key looks for?
fn is_hit(key: Key, slot: &Option<Call>) -> bool
    ensures yes_exactly_if_its_call_matches { result ≡ hits (keyed key) slot.now }
{
    slot.is_some_and(|call| is_keyed(key, call))
}

/// 64 places, each with at most one call. A call holds its channel only by the token that was entered with it.
// Stays an array: 64 places are a rule, and a step uses no heap.
#[derive(Drop)]
pub struct Table {
    places: [Option<Call>; 64],
    ghost whole: { length places ≡ 64 },
}

impl Table {
    /// All places free.
    pub fn new() -> Table
        ensures begins_free { result.places ≡ replicate 64 None }
    {
        Table { places: [None; 64] }
    }

    // The place of the first call that the key looks for: the call itself is copied once, when it is found.
    fn place_of(&self, key: Key) -> Option<usize>
        ensures of_the_first_that_matches { found_at self.now.places result ≡ seek (keyed key) self.now.places }
    {
        self.places.iter().position(|slot| is_hit(key, slot))
    }

    /// The first call that the key looks for.
    pub fn find(&self, key: Key) -> Option<Found>
        ensures the_first_that_matches_or_none { result ≡ seek (keyed key) self.now.places }
        ensures stands_at_its_place { Within result self.now.places }
    {
        let place = self.place_of(key)?;
        self.call_at(place).map(|call| Found { place, call })
    }

    /// The call at a place; a place from 64 on has none.
    pub fn call_at(&self, at: usize) -> Option<Call>
        ensures answers_the_call_there { result ≡ slice_index_or self.now.places at None }
    {
        *self.places.get(at)?
    }

    /// A free place, if there is one.
    pub fn free(&self) -> Option<usize>
        ensures a_free_place_or_none_is_free { FreePlace self.now.places result }
    {
        self.places.iter().position(Option::is_none)
    }

    /// The channel that a place holds; a place from 64 on holds none.
    pub fn holds(&self, place: usize) -> Option<u8>
        ensures answers_the_channel_held { result ≡ held self.now.places place }
    {
        holding(self.call_at(place))
    }

    /// Enters a call at a free place, with the token of the channel that it holds; else the token is handed back.
    pub fn enter(&mut self, place: usize, call: Call, token: Token) -> Result<(), Token>
        ensures handed_back_exactly_if_not_admitted { result ≡ answered (admits self.old.places place call token.channel) token }
        ensures entered_at_that_place_alone { self.new.places ≡ after_entering (admits self.old.places place call token.channel) self.old.places place call }
    {
        if !is_holding(call, token.channel) || place >= 64 || self.places[place].is_some() {
            return Err(token);
        }
        let Token { channel: _ } = token;
        self.places[place] = Some(call);
        Ok(())
    }

    /// Changes one record. A token that comes in is entered with the record; the token of a channel that the place no longer
    /// holds comes out. No such place, or a channel that would be held without its token: what came in is handed back.
    pub fn change(
        &mut self,
        place: usize,
        after: Option<Call>,
        token: Option<Token>,
    ) -> Result<Option<Token>, Option<Token>>
        ensures taken_exactly_if_allowed { MatchResult result (λ _. MayChange self.old.places place after token) (λ _. MayChange self.old.places place after token → ⊥) }
        ensures gives_out_the_channel_left_or_hands_back { MatchResult result (λ out. out ≡ left (slice_index_or self.old.places place None) after token) (λ back. back ≡ token) }
        ensures changes_that_place_alone { self.new.places ≡ after_changing (is_ok result) self.old.places place after }
    {
        let before = self.call_at(place);
        if place >= 64 || !enters(before, after, &token) {
            return Err(token);
        }
        self.places[place] = after;
        Ok(left(before, after, token))
    }

    /// Removes the call at a place; the token of the channel that it holds comes out.
    pub fn remove(&mut self, place: usize) -> Option<Token>
        ensures gives_out_the_channel_held { result ≡ token_of (held self.old.places place) }
        ensures frees_that_place_alone { self.new.places ≡ slice_set self.old.places place None }
    {
        let held = self.holds(place);
        if place < 64 {
            self.places[place] = None;
        }
        held.map(|channel| Token { channel })
    }
}
