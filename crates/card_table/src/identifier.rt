//! Texts of a card's table: its kind, its UID, and its SAK.
ghost use Rattle.std.specs.Prelude.{◌≡◌, [], ◌∷◌, option_map};
ghost use Rattle.toml.specs.View.{view};
ghost use Rattle.hex.specs.Hex.{decode_of};
ghost use Rattle.doc_table.specs.Read.{Gives, spelled};
ghost use Rattle.card_table.specs.Cards.{card_kind, kind_named, is_uid, uid, is_sak, sak};

use doc_table::{DocFault, DocKind, Path, Read, TableEnd, sized};
use ep_base::{Buf, CardKind, bit};
use std::alloc::Global;
use toml::Value;

/// Reads the kind of a card.
#[derive(Clone, Copy, Debug)]
pub struct KindWord;

impl Read for KindWord {
    ghost use Rattle.ep_base.specs.declared.air.CardKind.{CardKind as CardKindData};

    type Out = CardKind;

    ghost Meaning = { CardKindData };

    ghost seen = { λ k. k };

    ghost reads = { λ _. card_kind };

    ghost room = { 0 };

    fn read(&self, _alloc: Global, path: &Path, value: &Value) -> Result<CardKind, TableEnd> {
        Ok(card_kind(path, value)?)
    }
}

fn card_kind(path: &Path, value: &Value) -> Result<CardKind, DocFault>
    ensures { result ≡ card_kind path.now (view value.now) }
{
    match value.as_str() {
        None => Err(path.fault(DocKind::WrongKind, 0)),
        Some(word) => match kind_named(word) {
            Some(kind) => Ok(kind),
            None => Err(path.fault(DocKind::BadValue, word.len() as i64)),
        },
    }
}

fn kind_named(word: &str) -> Option<CardKind>
    ensures { result ≡ kind_named word.now }
{
    match word {
        "A" => Some(CardKind::A),
        "B" => Some(CardKind::B),
        _ => None,
    }
}

/// Reads a UID.
#[derive(Clone, Copy, Debug)]
pub struct UidText;

impl Read for UidText {
    ghost use Rattle.std.specs.Prelude.{ℕ, List};

    type Out = Buf<10>;

    ghost Meaning = { List ℕ };

    ghost seen = { λ b. b.items };

    ghost reads = { λ _. uid };

    ghost room = { 0 };

    fn read(&self, _alloc: Global, path: &Path, value: &Value) -> Result<Buf<10>, TableEnd> {
        Ok(uid_text(path, value)?)
    }
}

fn uid_text(path: &Path, value: &Value) -> Result<Buf<10>, DocFault>
    ensures { Gives (λ b. b.items) result (uid path.now (view value.now)) }
{
    match value.as_str() {
        None => Err(path.fault(DocKind::WrongKind, 0)),
        Some(text) => match uid_spelled(text) {
            Some(uid) => Ok(uid),
            None => Err(path.fault(DocKind::BadValue, text.len() as i64)),
        },
    }
}

fn uid_spelled(text: &str) -> Option<Buf<10>>
    ensures { option_map (λ b. b.items) result ≡ spelled is_uid (decode_of text.now) }
{
    let bytes = sized::<10>(text, 4, 10)?;
    if is_uid(bytes.as_slice()) {
        Some(bytes)
    } else {
        None
    }
}

fn is_uid(bytes: &[u8]) -> bool
    ensures { result ≡ is_uid bytes.now }
{
    match bytes.len() {
        4 => bytes[0] != 0x88,
        7 => bytes[3] != 0x88,
        count => count == 10,
    }
}

/// Reads a SAK.
#[derive(Clone, Copy, Debug)]
pub struct SakText;

impl Read for SakText {
    ghost use Rattle.std.specs.Prelude.{ℕ, List, [], ◌∷◌};

    type Out = u8;

    ghost Meaning = { List ℕ };

    ghost seen = { λ b. b ∷ [] };

    ghost reads = { λ _. sak };

    ghost room = { 0 };

    fn read(&self, _alloc: Global, path: &Path, value: &Value) -> Result<u8, TableEnd> {
        Ok(sak_text(path, value)?)
    }
}

fn sak_text(path: &Path, value: &Value) -> Result<u8, DocFault>
    ensures { Gives (λ b. b ∷ []) result (sak path.now (view value.now)) }
{
    match value.as_str() {
        None => Err(path.fault(DocKind::WrongKind, 0)),
        Some(text) => match sak_spelled(text) {
            Some(sak) => Ok(sak),
            None => Err(path.fault(DocKind::BadValue, text.len() as i64)),
        },
    }
}

fn sak_spelled(text: &str) -> Option<u8>
    ensures { option_map (λ b. b ∷ []) result ≡ spelled is_sak (decode_of text.now) }
{
    let bytes = sized::<1>(text, 1, 1)?;
    let sak = bytes[0];
    if bit(sak, 0x04) == 0 { Some(sak) } else { None }
}
