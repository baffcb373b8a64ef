//! The values that a caller gives to variables before a check begins.

ghost use Rattle.std.specs.Prelude.{◌≡◌, [], List, Err, IfOk};
ghost use Rattle.ctd_program.specs.Presets.{ArePresets};

use crate::preset_text::presets;
use ctd_token::{Bytes, Name, TokenFault};
use std::alloc::{AllocError, AllocFailed, Global};
use std::marker::Model;

/// A number or a string, as written.
pub enum PresetValue {
    Int(i128),
    Text(Bytes),
}

impl Drop for PresetValue {
    fn drop(self) {
        match self {
            PresetValue::Int(_) | PresetValue::Text(_) => {}
        }
    }
}

/// The indices of a variable as written, which contracts see as the list of them.
pub struct Literals {
    values: Vec<PresetValue>,
}

impl Drop for Literals {
    fn drop(self) {
        let Literals { values: _ } = self;
    }
}

impl Model for Literals {
    ghost use Rattle.std.specs.Prelude.{List};
    ghost use Rattle.ctd_program.specs.declared.preset.PresetValue.{PresetValue};

    ghost Value = { List PresetValue };

    ghost view = { λ l. l.values.items };
}

impl Literals {
    /// A list with these literals, which takes no memory.
    pub(crate) fn from_vec(values: Vec<PresetValue>) -> Literals
        ensures same { result ≡ values.items }
    {
        Literals { values }
    }

    /// Lends the list.
    pub fn as_slice(&self) -> &[PresetValue]
        ensures whole { result.now ≡ self.now }
    {
        self.values.as_slice()
    }
}

/// The name and the indices of a variable, of which an unindexed one has none, and the value that stays with it.
pub struct Preset {
    pub name: Name,
    pub indices: Literals,
    pub value: PresetValue,
}

impl Drop for Preset {
    fn drop(self) {
        let Preset {
            name: _,
            indices: _,
            value: _,
        } = self;
    }
}

/// Presets in their order, which contracts see as the list of them; the last of a key, which is a name with its indices, counts.
pub struct Presets {
    items: Vec<Preset>,
}

impl Drop for Presets {
    fn drop(self) {
        let Presets { items: _ } = self;
    }
}

impl Model for Presets {
    ghost use Rattle.std.specs.Prelude.{List};
    ghost use Rattle.ctd_program.specs.declared.preset.Preset.{Preset};

    ghost Value = { List Preset };

    ghost view = { λ p. p.items.items };
}

impl Presets {
    /// No presets; takes no memory.
    pub fn none(alloc: Global) -> Presets
        ensures empty { result ≡ [] }
    {
        let items = Vec::new(alloc);
        Presets { items }
    }

    /// The presets that a text spells, all of them and in its order: `name=value` or
    /// `name[index,..]=value`, once or more, with a comma between each two and no blanks.
    ///
    /// A name is a token of a program, and an index and a value are each a numeral, a numeral behind a
    /// minus, or a string literal, to which the commas, brackets and escapes between its quotes belong
    /// (docs/LANGUAGE.md, tokens). So a numeral has no leading zero and is at most
    /// 2^127 - 1, and `-0` is 0. Any other text, the empty one too, is BadPreset, and a refused growth
    /// is Memory. The time is linear in the bytes of the text.
    pub fn read(alloc: Global, text: &str) -> Result<Presets, PresetFault>
        ensures read { IfOk result (ArePresets text.now) }
        ensures only { IfOk result (λ ps.
            (others : List Preset) → ArePresets text.now others → others ≡ ps) }
        ensures refused { result ≡ Err PresetFault.BadPreset →
            (ps : List Preset) → ArePresets text.now ps → ⊥ }
    {
        let items = presets(alloc, text.as_bytes())?;
        Ok(Presets { items })
    }

    /// The presets, all of them and in their order.
    pub fn pins(&self) -> &[Preset]
        ensures whole { result.now ≡ self.now }
    {
        self.items.as_slice()
    }
}

/// Why a text of presets is refused.
#[derive(Clone, Copy, Debug, PartialEq, Eq)]
pub enum PresetFault {
    /// The text spells no presets.
    BadPreset = 1,
    /// No memory was left.
    Memory = 2,
}

impl From<TokenFault> for PresetFault {
    ghost use Rattle.std.specs.Prelude.{◌≡◌};
    ghost use Rattle.ctd_program.specs.calls.PresetFront.{fault_of};

    ghost from_gives = { λ fault e. e ≡ fault_of fault };

    fn from(fault: TokenFault) -> Self {
        match fault {
            TokenFault::Wrong { kind: _, behind: _ } => PresetFault::BadPreset,
            TokenFault::Memory => PresetFault::Memory,
        }
    }
}

impl From<AllocError> for PresetFault {
    ghost use Rattle.std.specs.Prelude.{◌≡◌};
    ghost use Rattle.ctd_program.specs.declared.preset.PresetFault.TheVariants.{Memory};

    ghost from_gives = { λ _ e. e ≡ Memory };

    fn from(_error: AllocError) -> Self {
        PresetFault::Memory
    }
}

impl<T: Drop> From<AllocFailed<T>> for PresetFault {
    ghost use Rattle.std.specs.Prelude.{◌≡◌};
    ghost use Rattle.ctd_program.specs.declared.preset.PresetFault.TheVariants.{Memory};

    ghost from_gives = { λ _ e. e ≡ Memory };

    fn from(_error: AllocFailed<T>) -> Self {
        PresetFault::Memory
    }
}
