//! The names of a program, by their indices.

ghost use Rattle.std.specs.Prelude.{◌≡◌, ◌≢◌, true, false};
ghost use Rattle.ctd_states.specs.calls.States.{name_at};

/// The name at an index: behind the last there is the empty one, which no variable has.
fn name_at<'n>(names: &[&'n [u8]], i: usize) -> &'n [u8]
    ensures { result.now ≡ name_at names.now i }
{
    match names.get(i) {
        Some(name) => name,
        None => &[],
    }
}

/// Whether the name at an index is this one.
pub fn is_name(names: &[&[u8]], i: usize, name: &[u8]) -> bool
    ensures same { result ≡ true → name_at names.now i ≡ name.now }
    ensures other { result ≡ false → name_at names.now i ≢ name.now }
{
    name_at(names, i) == name
}

/// Whether two names are one.
pub fn is_same_name(names: &[&[u8]], i: usize, j: usize) -> bool
    ensures same { result ≡ true → name_at names.now i ≡ name_at names.now j }
    ensures other { result ≡ false → name_at names.now i ≢ name_at names.now j }
{
    is_name(names, i, name_at(names, j))
}
