//! The text of presets, whose names, numerals and strings are tokens of the checktestdata language
//! specification.

ghost use Rattle.std.specs.Prelude.{◌≡◌, ◌+◌, ◌≤◌, List, length, Err, IfOk};
ghost use Rattle.ctd_token.specs.Cut.{token_at};
ghost use Rattle.ctd_program.specs.Presets.{AreSeparated, ArePresets, IsPreset};
ghost use Rattle.ctd_program.specs.inner.PresetFront.{IsFound, negative_literal, literal_at, MayFollowItem, MayFollowList, MayFollowTarget, IsAtFront, NothingIsAtFront, AreIndices, SpellsTarget};
ghost use Rattle.ctd_program.specs.declared.preset.Preset.{Preset};

use crate::preset::{Literals, Preset, PresetFault, PresetValue};
use ctd_token::{Name, TokenKind, token_at};
use std::alloc::Global;

/// What stands in a list with commas: presets, and the indices of one.
trait Item: Sized {
    ghost use Rattle.std.specs.Prelude.{◌≡◌, ℕ, List, Err, IfOk};
    ghost use Rattle.ctd_program.specs.inner.PresetFront.{MayFollowItem, IsAtFront, NothingIsAtFront};

    // Which text spells which item.
    ghost spells: { List ℕ → Self → Type 0 };

    /// The item at the front of some bytes and its length.
    fn item_at(alloc: Global, bytes: &[u8]) -> Result<(Self, usize), PresetFault>
        ensures read { IfOk result (IsAtFront MayFollowItem spells bytes.now) }
        ensures refused { result ≡ Err PresetFault.BadPreset → NothingIsAtFront MayFollowItem spells bytes.now };
}

impl Item for PresetValue {
    ghost use Rattle.ctd_program.specs.Presets.{IsPresetValue};

    ghost spells = { IsPresetValue };

    fn item_at(alloc: Global, bytes: &[u8]) -> Result<(PresetValue, usize), PresetFault> {
        literal_at(alloc, bytes)
    }
}

impl Item for Preset {
    ghost use Rattle.ctd_program.specs.Presets.{IsPreset};

    ghost spells = { IsPreset };

    fn item_at(alloc: Global, bytes: &[u8]) -> Result<(Preset, usize), PresetFault> {
        preset_at(alloc, bytes)
    }
}

// The number behind a minus and its length with the minus.
fn negative_at(alloc: Global, bytes: &[u8]) -> Result<(PresetValue, usize), PresetFault>
    ensures value { IsFound result (negative_literal (token_at bytes.now)) }
    ensures within { IfOk result (λ x. x.1 ≤ 1 + length bytes.now) }
{
    if bytes.is_empty() {
        return Err(PresetFault::BadPreset);
    }
    let (kind, len) = token_at(alloc, bytes)?;
    match kind {
        TokenKind::Numeral(n) => Ok((PresetValue::Int(-n), 1 + len)),
        _ => Err(PresetFault::BadPreset),
    }
}

// The literal at the front of some bytes and its length.
fn literal_at(alloc: Global, bytes: &[u8]) -> Result<(PresetValue, usize), PresetFault>
    ensures value { IsFound result (literal_at bytes.now) }
    ensures within { IfOk result (λ x. x.1 ≤ length bytes.now) }
{
    if bytes.is_empty() {
        return Err(PresetFault::BadPreset);
    }
    if bytes[0] == b'-' {
        return negative_at(alloc, &bytes[1..]);
    }
    let (kind, len) = token_at(alloc, bytes)?;
    match kind {
        TokenKind::Numeral(n) => Ok((PresetValue::Int(n), len)),
        TokenKind::Text(values) => Ok((PresetValue::Text(values), len)),
        _ => Err(PresetFault::BadPreset),
    }
}

// The items at the front of some bytes, one and then one behind each comma, and their length.
fn list_at<T: Item + Drop>(alloc: Global, bytes: &[u8]) -> Result<(Vec<T>, usize), PresetFault>
    ensures read { IfOk result (λ x. IsAtFront MayFollowList (AreSeparated T.spells) bytes.now (x.0.items, x.1)) }
    ensures refused { result ≡ Err PresetFault.BadPreset → NothingIsAtFront MayFollowList (AreSeparated T.spells) bytes.now }
{
    let mut items = Vec::new(alloc);
    let mut at = 0;
    loop {
        let (item, len) = T::item_at(alloc, &bytes[at..])?;
        items.push(item)?;
        at += len;
        if at == bytes.len() || bytes[at] != b',' {
            return Ok((items, at));
        }
        at += 1;
    }
}

// The indices at the front of some bytes, which are none where no bracket opens there, and their length with the brackets.
fn indices_at(alloc: Global, bytes: &[u8]) -> Result<(Literals, usize), PresetFault>
    ensures read { IfOk result (IsAtFront MayFollowTarget AreIndices bytes.now) }
    ensures refused { result ≡ Err PresetFault.BadPreset → NothingIsAtFront MayFollowTarget AreIndices bytes.now }
{
    if bytes.is_empty() || bytes[0] != b'[' {
        return Ok((Literals::from_vec(Vec::new(alloc)), 0));
    }
    let (values, len) = list_at(alloc, &bytes[1..])?;
    let close = 1 + len;
    if close == bytes.len() || bytes[close] != b']' {
        return Err(PresetFault::BadPreset);
    }
    Ok((Literals::from_vec(values), close + 1))
}

// The name and the indices at the front of some bytes, and the length of both.
fn target_at(alloc: Global, bytes: &[u8]) -> Result<((Name, Literals), usize), PresetFault>
    ensures read { IfOk result (IsAtFront MayFollowTarget SpellsTarget bytes.now) }
    ensures refused { result ≡ Err PresetFault.BadPreset → NothingIsAtFront MayFollowTarget SpellsTarget bytes.now }
{
    if bytes.is_empty() {
        return Err(PresetFault::BadPreset);
    }
    let (kind, n) = token_at(alloc, bytes)?;
    if !matches!(kind, TokenKind::Name) {
        return Err(PresetFault::BadPreset);
    }
    let (indices, len) = indices_at(alloc, &bytes[n..])?;
    let name = Name::copy(alloc, &bytes[..n])?;
    Ok(((name, indices), n + len))
}

// The preset at the front of some bytes and its length.
fn preset_at(alloc: Global, bytes: &[u8]) -> Result<(Preset, usize), PresetFault>
    ensures read { IfOk result (IsAtFront MayFollowItem IsPreset bytes.now) }
    ensures refused { result ≡ Err PresetFault.BadPreset → NothingIsAtFront MayFollowItem IsPreset bytes.now }
{
    let ((name, indices), n) = target_at(alloc, bytes)?;
    if n == bytes.len() || bytes[n] != b'=' {
        return Err(PresetFault::BadPreset);
    }
    let (value, len) = literal_at(alloc, &bytes[n + 1..])?;
    let preset = Preset {
        name,
        indices,
        value,
    };
    Ok((preset, n + 1 + len))
}

/// The presets that a text spells: one or more, with a comma between each two.
pub(crate) fn presets(alloc: Global, text: &[u8]) -> Result<Vec<Preset>, PresetFault>
    ensures read { IfOk result (λ ps. ArePresets text.now ps.items) }
    ensures only { IfOk result (λ ps.
        (others : List Preset) → ArePresets text.now others → others ≡ ps.items) }
    ensures refused { result ≡ Err PresetFault.BadPreset →
        (ps : List Preset) → ArePresets text.now ps → ⊥ }
{
    let (presets, len) = list_at(alloc, text)?;
    if len < text.len() {
        return Err(PresetFault::BadPreset);
    }
    Ok(presets)
}
