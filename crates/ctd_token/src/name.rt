//! The names of variables.

ghost use Rattle.std.specs.Prelude.{◌≡◌, true, IfOk};
ghost use Rattle.ctd_token.specs.calls.ShortNames.{pack, IsShort};

use crate::limits::SHORT_NAME;
use crate::text::Bytes;
use std::alloc::{AllocError, Global};
use std::marker::Model;

/// What a name has besides its eight bytes: its number, of which no contract says anything, and the bytes of a long one. These lie in a box,
/// so that they make no name larger.
#[derive(Drop)]
enum NameRest {
    Short(u32),
    Long(u32, Box<Bytes>),
}

/// The eight bytes of each long name, which no short one has.
const LONG: [u8; 8] = [u8::MAX; 8];

/// The bytes of a short name, zeros behind them, and how many they are.
fn pack(bytes: &[u8]) -> [u8; 8]
    requires { IsShort bytes.now }
    ensures { result ≡ pack bytes.now }
{
    let mut packed = [0; 8];
    packed[..bytes.len()].copy_from_slice(bytes);
    packed[SHORT_NAME] = bytes.len() as u8;
    packed
}

/// Whether eight bytes are the same: one comparison of two numbers.
#[inline(always)]
fn are_same(a: &[u8; 8], b: &[u8; 8]) -> bool
    ensures same { result ≡ true → a.now ≡ b.now }
    ensures all { a.now ≡ b.now → result ≡ true }
{
    u64::from_le_bytes(*a) == u64::from_le_bytes(*b)
}

/// The name of a variable, which contracts see as the list of its bytes. Those of a short one stand in it, so that most names take no memory
/// besides: they, zeros behind them, and how many they are.
pub struct Name {
    packed: [u8; 8],
    rest: NameRest,
}

impl Drop for Name {
    fn drop(self) {
        let Name { packed: _, rest: _ } = self;
    }
}

/// The number of a name that was given none.
const NO_NUMBER: u32 = u32::MAX;

impl Model for Name {
    ghost use Rattle.std.specs.Prelude.{List, ℕ};
    ghost use Rattle.ctd_token.specs.ShortNames.{bytes_of};
    ghost use Rattle.ctd_token.specs.calls.ShortNames.{IsKept};

    ghost Value = { List ℕ };

    ghost view = { λ n. bytes_of n.packed n.rest };

    ghost invariant = { λ n. IsKept n.packed n.rest };
}

impl Name {
    /// A name of these bytes, copied, or an error where no memory is left for it. Which bytes they are is not asked. One of at most
    /// seven bytes takes no memory.
    pub fn copy(alloc: Global, bytes: &[u8]) -> Result<Name, AllocError>
        ensures equal { IfOk result (λ copied. copied ≡ bytes.now) }
    {
        Name::numbered(alloc, bytes, NO_NUMBER)
    }

    /// A name of these bytes, copied, with a number for those who look names up; or an error where no memory is left for it.
    pub fn numbered(alloc: Global, bytes: &[u8], number: u32) -> Result<Name, AllocError>
        ensures equal { IfOk result (λ copied. copied ≡ bytes.now) }
    {
        if bytes.len() <= SHORT_NAME {
            let packed = pack(bytes);
            let rest = NameRest::Short(number);
            return Ok(Name { packed, rest });
        }
        let long = Bytes::copy(alloc, bytes)?;
        let rest = NameRest::Long(number, Box::new(alloc, long)?);
        Ok(Name { packed: LONG, rest })
    }

    /// The bytes of the name, all of them.
    #[inline(always)]
    pub fn as_slice(&self) -> &[u8]
        ensures whole { result.now ≡ self.now }
    {
        match &self.rest {
            NameRest::Short(_) => &self.packed[..self.packed[SHORT_NAME] as usize],
            NameRest::Long(_, bytes) => bytes.as_slice(),
        }
    }

    /// The number that the name was given, or one that no name is given. It is a hint for those who look names up: equal names
    /// may have different numbers, and different names the same one.
    pub fn number(&self) -> u32 {
        match &self.rest {
            NameRest::Short(number) => *number,
            NameRest::Long(number, _) => *number,
        }
    }
}

/// Eight bytes that no name has.
const LONG_NAME_KEY: [u8; 8] = [u8::MAX - 1; 8];

/// A name with which others are compared, which contracts see as the list of its bytes.
pub struct NameKey {
    name: Name,
    // The eight bytes of a short name; of a long one others, which no name has. So one comparison tells.
    packed: [u8; 8],
}

impl Drop for NameKey {
    fn drop(self) {
        let NameKey { name: _, packed: _ } = self;
    }
}

impl Model for NameKey {
    ghost use Rattle.std.specs.Prelude.{◌≡◌, List, ℕ};
    ghost use Rattle.ctd_token.specs.calls.ShortNames.{key_bytes};

    ghost Value = { List ℕ };

    ghost view = { λ k. k.name };

    ghost invariant = { λ k. k.packed ≡ key_bytes k.name };
}

impl NameKey {
    /// Packs a name for comparison; takes no memory.
    pub fn new(name: Name) -> NameKey
        ensures equal { result ≡ name }
    {
        let packed = match &name.rest {
            NameRest::Short(_) => name.packed,
            NameRest::Long(_, _) => LONG_NAME_KEY,
        };
        NameKey { name, packed }
    }

    /// The bytes of the name, all of them.
    #[inline(always)]
    pub fn as_slice(&self) -> &[u8]
        ensures whole { result.now ≡ self.now }
    {
        self.name.as_slice()
    }

    /// Whether another name is the same, where this one has at most seven bytes; it does not look at the bytes of a long one, so for those false
    /// may stand for equal names.
    #[inline(always)]
    pub fn is_same_short(&self, other: &Name) -> bool
        ensures same { result ≡ true → self.now ≡ other.now }
        ensures short { IsShort self.now → self.now ≡ other.now → result ≡ true }
    {
        are_same(&self.packed, &other.packed)
    }
}
