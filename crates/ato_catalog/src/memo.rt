//! The quantities of texts that were read before.
ghost use Rattle.std.specs.Prelude.{◌≡◌, true, length, IfOk, IfSome, MatchOption};
ghost use Rattle.std.specs.Str.{is_utf8};
ghost use Rattle.ato_catalog.specs.Memos.{AreKept};
ghost use Rattle.ato_catalog.specs.Values.{IsNoQuantity, IsQuantity};

use crate::cells::as_text;
use ato_base::NoMemory;
use ato_units::{Quantity, read_quantity};
use std::alloc::Global;
use std::marker::Model;

/// How many quantities are kept at most.
const PLACES: usize = 4096;

/// A quantity, and the text that it was read from.
#[derive(Clone, Copy)]
pub(crate) struct Kept<'a> {
    text: &'a [u8],
    quantity: Quantity,
}

/// The quantities of texts that were read before. Each text has a place, and the last one that was read
/// there is kept.
#[derive(Drop)]
pub(crate) struct Memo<'a> {
    kept: Vec<Option<Kept<'a>>>,
}

impl<'a> Model for Memo<'a> {
    ghost use Rattle.std.specs.Prelude.{ℕ, length};

    ghost Value = { ℕ };

    ghost use Rattle.ato_catalog.specs.Memos.{AreKept};

    ghost view = { λ it. length it.kept.items };

    ghost invariant = { λ it. AreKept it.kept.items };
}

/// The place of a text.
fn place_of(text: &[u8]) -> usize {
    let mut hash = 0u32;
    for byte in text {
        hash = hash.wrapping_mul(31).wrapping_add(u32::from(*byte));
    }
    hash as usize % PLACES
}

/// So many places, and nothing kept.
fn places<'a>(alloc: Global) -> Result<Vec<Option<Kept<'a>>>, NoMemory>
    ensures { IfOk result (λ places. AreKept places.items) }
{
    let mut places = Vec::with_capacity(alloc, PLACES)?;
    for _ in 0..PLACES {
        places.push(None)?;
    }
    Ok(places)
}

impl<'a> Memo<'a> {
    /// A memo that keeps nothing yet.
    pub(crate) fn new(alloc: Global) -> Result<Memo<'a>, NoMemory> {
        let kept = places(alloc)?;
        Ok(Memo { kept })
    }

    /// The quantity that is kept for a text.
    fn find(&self, text: &[u8]) -> Option<Quantity>
        ensures { IfSome result (IsQuantity text.now) }
    {
        let place = place_of(text);
        if place >= self.kept.len() {
            return None;
        }
        let kept = self.kept[place]?;
        if kept.text == text {
            Some(kept.quantity)
        } else {
            None
        }
    }

    /// Keeps the quantity of a text.
    fn keep(&mut self, text: &'a [u8], quantity: Quantity)
        requires { IsQuantity text.now quantity }
    {
        let place = place_of(text);
        if place < self.kept.len() {
            self.kept[place] = Some(Kept { text, quantity });
        }
    }

    /// The quantity of a text, if it is one. It is read once, as long as no other text takes its place.
    pub(crate) fn read(&mut self, text: &'a [u8]) -> Option<Quantity>
        requires { is_utf8 text.now ≡ true }
        ensures { MatchOption result (IsNoQuantity text.now) (IsQuantity text.now) }
    {
        match self.find(text) {
            Some(quantity) => Some(quantity),
            None => self.read_anew(text),
        }
    }

    /// The quantity of a text, if it is one, which is then kept.
    fn read_anew(&mut self, text: &'a [u8]) -> Option<Quantity>
        requires { is_utf8 text.now ≡ true }
        ensures { MatchOption result (IsNoQuantity text.now) (IsQuantity text.now) }
    {
        let quantity = read_bytes(text)?;
        self.keep(text, quantity);
        Some(quantity)
    }
}

/// The quantity of a text, if it is one.
fn read_text(text: &str) -> Option<Quantity>
    ensures { MatchOption result (IsNoQuantity text.now) (IsQuantity text.now) }
{
    match read_quantity(text) {
        Ok(quantity) => Some(quantity),
        Err(_) => None,
    }
}

/// The quantity of some bytes, if they are the text of one.
fn read_bytes(bytes: &[u8]) -> Option<Quantity>
    requires { is_utf8 bytes.now ≡ true }
    ensures { MatchOption result (IsNoQuantity bytes.now) (IsQuantity bytes.now) }
{
    let text = as_text(bytes)?;
    read_text(text)
}
