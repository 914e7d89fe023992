//! The LID and the LMC, by their words.
ghost use Rattle.std.specs.Prelude.{◌≡◌, ◌<◌, [], ◌∷◌, length, IfSome, MatchOption};
ghost use Rattle.fab_text.specs.Fields.{words_of};
ghost use Rattle.fab_text.specs.Readings.{Answers};
ghost use Rattle.fab_netdiscover.specs.Fronts as fronts;

use crate::BadKind;
use crate::fault::LineFault;
use crate::fronts::{number_at, past_byte};
use fab_text::word;

/// The LID and the LMC of a switch, or of a port of an adapter.
#[derive(Clone, Copy)]
pub(crate) struct Address {
    pub(crate) lid: u32,
    pub(crate) lmc: u32,
}

/// The next word, and the bytes after it.
#[tactic(auto, using(std::proofs::lemmas::Grind::common_steps, fab_text::proofs::Words::next_word_is, fab_text::proofs::Words::no_word_is))]
fn next_word(bytes: &[u8]) -> Option<(&[u8], &[u8])>
    ensures words { MatchOption result (words_of bytes.now ≡ []) (λ read. words_of bytes.now ≡ read.0.now ∷ words_of read.1.now) }
    ensures shorter { IfSome result (λ read. length read.1.now < length bytes.now) }
{
    let place = word(bytes, 0)?;
    Some((&bytes[place.start..place.end], &bytes[place.end..]))
}

/// The bytes after the first word that is this one.
fn after_word<'a>(key: &[u8], bytes: &'a [u8]) -> Option<&'a [u8]>
    ensures { MatchOption result
        (fronts.words_after key.now (words_of bytes.now) ≡ [])
        (λ rest. fronts.words_after key.now (words_of bytes.now) ≡ words_of rest.now) }
{
    let mut rest = bytes;
    while let Some((found, after)) = next_word(rest) {
        if found == key {
            return Some(after);
        }
        rest = after;
    }
    None
}

/// The number that is the whole of a word.
fn whole_number(word: &[u8]) -> Result<u32, LineFault>
    ensures { result ≡ fronts.whole_number word.now }
{
    match number_at(BadKind::Lid, word)? {
        (number, []) => Ok(number),
        _ => Err(LineFault::Bad(BadKind::Lid)),
    }
}

/// The number that is the word after the first word that is this one, and the bytes after it.
fn number_after<'a>(key: &[u8], bytes: &'a [u8]) -> Result<(u32, &'a [u8]), LineFault>
    ensures { Answers (λ read. (read.0, words_of read.1.now)) result (fronts.first_number (fronts.words_after key.now (words_of bytes.now))) }
{
    let Some(rest) = after_word(key, bytes) else {
        return Err(LineFault::Bad(BadKind::Lid));
    };
    let Some((word, rest)) = next_word(rest) else {
        return Err(LineFault::Bad(BadKind::Lid));
    };
    Ok((whole_number(word)?, rest))
}

/// The LID and the LMC that these words give.
#[tactic(auto, unfolding(crate::specs::Fronts::address_in))]
pub(crate) fn address_in(bytes: &[u8]) -> Result<Address, LineFault>
    ensures { result ≡ fronts.address_in bytes.now }
{
    let (lid, rest) = number_after(b"lid", bytes)?;
    let (lmc, _) = number_after(b"lmc", rest)?;
    Ok(Address { lid, lmc })
}

/// The LID and the LMC that the words behind the next `#` give.
#[tactic(auto, unfolding(crate::specs::Fronts::address_behind_mark))]
pub(crate) fn address_behind_mark(bytes: &[u8]) -> Result<Address, LineFault>
    ensures { result ≡ fronts.address_behind_mark bytes.now }
{
    match past_byte(b'#', bytes) {
        Some(rest) => address_in(rest),
        None => Err(LineFault::Bad(BadKind::Lid)),
    }
}
