// What every storey above says of fabrics in common: wires, the kinds of elements, counts of rows, wires and program bits, and of rows by kind.
// Types and numbers alone; nothing here knows of blocks or plans.
#![tactic(auto)]

ghost use Rattle.std.specs.Prelude.{◌≡◌, ◌+◌, ◌%◌, ◌^◌};
ghost use Rattle.elements.specs.Elements.{kind_number, NamesKind};

use fault::Fault;

// The wires of the largest fabric: 0 to 65,535.
pub const MAX_WIRES: usize = 65_536;

// The program bits of a gate: its table.
pub const GATE_BITS: u32 = 4;

// A wire of a fabric. The next unmade wire of a full one is 65,536.
#[derive(Clone, Copy)]
pub struct FabricWire(pub u32);

// The kinds of elements.
#[derive(Clone, Copy, PartialEq, Eq)]
pub enum Kind {
    X,
    Y,
    G,
}

// The rows of a block or a fabric, the wires that they make, and their program bits.
#[derive(Clone, Copy)]
pub struct Counts {
    pub rows: u32,
    pub wires: u32,
    pub bits: u32,
}

// The rows of each kind, and their total.
#[repr(C)]
#[derive(Clone, Copy)]
pub struct KindCounts {
    pub x: u32,
    pub y: u32,
    pub g: u32,
    pub total: u32,
}

// The sheet of a fabric: its rows by kind, in each of its three parts and in all of it.
#[derive(Clone, Copy)]
pub struct Sheet {
    pub input: KindCounts,
    pub block: KindCounts,
    pub output: KindCounts,
    pub sum: KindCounts,
}

impl FabricWire {
    // The wire that comes `count` wires later, in 32 bits.
    pub fn plus(self, count: u32) -> FabricWire
        ensures { result.0 ≡ (self.0 + count) % 2 ^ 32 }
    {
        FabricWire(self.0.wrapping_add(count))
    }
}

// An entry of a table or of a list, as a wire.
impl From<u16> for FabricWire {
    ghost from_gives = { λ entry wire. wire.0 ≡ entry };

    fn from(entry: u16) -> FabricWire {
        FabricWire(u32::from(entry))
    }
}

// The number of a kind.
impl From<Kind> for u16 {
    ghost from_gives = { λ kind number. number ≡ kind_number kind };

    fn from(kind: Kind) -> u16 {
        match kind {
            Kind::X => 1,
            Kind::Y => 2,
            Kind::G => 3,
        }
    }
}

// The kind that a number names: 13, a malformed table, where it names none.
impl TryFrom<u16> for Kind {
    type Error = Fault;

    ghost try_from_gives = { NamesKind };

    fn try_from(number: u16) -> Result<Kind, Fault> {
        match number {
            1 => Ok(Kind::X),
            2 => Ok(Kind::Y),
            3 => Ok(Kind::G),
            _ => Err(Fault::Fabric),
        }
    }
}
