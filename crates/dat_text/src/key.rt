// The keys of an instance text.
ghost use Rattle.std.specs.Prelude.{◌≡◌};
ghost use Rattle.dat_text.specs.Lines.{key_name, has_number};
ghost use Rattle.dat_text.specs.Text.{key_place};

use std::fmt;

/// A key of an instance text. Its line states a number, or opens a list of edges.
#[derive(Clone, Copy, Debug, PartialEq, Eq)]
pub enum Key {
    /// `VERTICES`: the number of vertices.
    Vertices,
    /// `ARISTAS_REQ`: the number of required edges.
    RequiredCount,
    /// `ARISTAS_NOREQ`: the number of other edges.
    OtherCount,
    /// `CAPACIDAD`: the capacity of a vehicle.
    Capacity,
    /// `DEPOSITO`: the vertex where every tour starts and ends.
    Depot,
    /// `LISTA_ARISTAS_REQ`: the required edges follow.
    RequiredList,
    /// `LISTA_ARISTAS_NOREQ`: the other edges follow.
    OtherList,
}

impl Key {
    /// The key as it is written, in capitals.
    pub fn name(self) -> &'static str
        ensures { result.now ≡ key_name self }
    {
        match self {
            Key::Vertices => "VERTICES",
            Key::RequiredCount => "ARISTAS_REQ",
            Key::OtherCount => "ARISTAS_NOREQ",
            Key::Capacity => "CAPACIDAD",
            Key::Depot => "DEPOSITO",
            Key::RequiredList => "LISTA_ARISTAS_REQ",
            Key::OtherList => "LISTA_ARISTAS_NOREQ",
        }
    }
}

impl Key {
    /// Whether a number stands at the key. At the other keys a list of edges begins.
    pub(crate) fn has_number(self) -> bool
        ensures { result ≡ has_number self }
    {
        match self {
            Key::RequiredList | Key::OtherList => false,
            _ => true,
        }
    }

    /// The key's place, from 0.
    pub(crate) fn place(self) -> usize
        ensures { result ≡ key_place self }
    {
        match self {
            Key::Vertices => 0,
            Key::RequiredCount => 1,
            Key::OtherCount => 2,
            Key::Capacity => 3,
            Key::Depot => 4,
            Key::RequiredList => 5,
            Key::OtherList => 6,
        }
    }
}

impl fmt::Display for Key {
    ghost use Rattle.std.specs.Prelude.{Some};
    ghost use Rattle.dat_text.specs.Lines.{key_name};

    ghost output = { λ key. Some (key_name key) };

    fn fmt<W: fmt::Write>(&self, f: &mut fmt::Formatter<W>) -> fmt::Result {
        f.write_str(self.name())
    }
}
