// The guest's data, over a port: bytes of one line at a time.
ghost use Rattle.std.specs.Prelude.{◌≡◌, ◌-◌, ◌%◌, OnOk};
ghost use Rattle.hier_types.specs.Causes.{Refuses};
ghost use Rattle.hier_types.specs.PortCalls.{IsHeld, PortMade, poke_calls};
ghost use Rattle.hier_types.specs.Span.{first, Has, line_at};
ghost use Rattle.rv_core.specs.Hart.{half_at, put, word_at};
ghost use Rattle.rv_core.specs.Operations.{load_value, load_width, store_bytes, store_width};
ghost use Rattle.rv_core.specs.Touched.{addressed};

use hier_types::{NoSpace, Port};
use rv_decode::{LoadOp, StoreOp};

/// Touches the line of an address in the span.
pub fn touch_at<P: Port>(port: &mut P, at: u32) -> Result<(), NoSpace>
    requires { Has (P.span port.old) at }
    ensures held { OnOk result (IsHeld (P.held port.new) (line_at (P.span port.old) at)) }
    ensures bytes { P.bytes port.new ≡ P.bytes port.old }
    ensures span { P.span port.new ≡ P.span port.old }
    ensures cause { Refuses (P.stops port.old) (P.stops port.new) (P.crowded port.new) result }
    ensures did { P.did_touch port.old (line_at (P.span port.old) at) result port.new }
{
    let line = port.span().line_of(at);
    port.touch(line)
}

/// The half word at an address that is a multiple of 2, whose line is held.
pub fn half_from<P: Port>(port: &P, at: u32) -> u16
    requires aligned { at % 2 ≡ 0 }
    requires has { Has (P.span port.now) at }
    requires held { IsHeld (P.held port.now) (line_at (P.span port.now) at) }
    ensures { result ≡ half_at (P.bytes port.now) (at - first (P.span port.now)) }
{
    u16::from_le_bytes([port.peek(at), port.peek(at + 1)])
}

/// The word at an address that is a multiple of 4, whose line is held.
pub fn word_from<P: Port>(port: &P, at: u32) -> u32
    requires aligned { at % 4 ≡ 0 }
    requires has { Has (P.span port.now) at }
    requires held { IsHeld (P.held port.now) (line_at (P.span port.now) at) }
    ensures { result ≡ word_at (P.bytes port.now) (at - first (P.span port.now)) }
{
    u32::from_le_bytes([
        port.peek(at),
        port.peek(at + 1),
        port.peek(at + 2),
        port.peek(at + 3),
    ])
}

/// The bytes that a load takes.
pub fn width_of_load(op: LoadOp) -> u32
    ensures { result ≡ load_width op }
{
    match op {
        LoadOp::Lb => 1,
        LoadOp::Lh => 2,
        LoadOp::Lw => 4,
        LoadOp::Lbu => 1,
        LoadOp::Lhu => 2,
    }
}

/// The bytes that a store puts.
pub fn width_of_store(op: StoreOp) -> u32
    ensures { result ≡ store_width op }
{
    match op {
        StoreOp::Sb => 1,
        StoreOp::Sh => 2,
        StoreOp::Sw => 4,
    }
}

/// What a load gives from an aligned address whose line is held.
pub fn loaded_from<P: Port>(port: &P, op: LoadOp, at: u32) -> u32
    requires aligned { at % load_width op ≡ 0 }
    requires has { Has (P.span port.now) at }
    requires held { IsHeld (P.held port.now) (line_at (P.span port.now) at) }
    ensures { result ≡ load_value op (P.bytes port.now) (at - first (P.span port.now)) }
{
    match op {
        LoadOp::Lb => i32::from(port.peek(at).cast_signed()).cast_unsigned(),
        LoadOp::Lh => i32::from(half_from(port, at).cast_signed()).cast_unsigned(),
        LoadOp::Lw => word_from(port, at),
        LoadOp::Lbu => u32::from(port.peek(at)),
        LoadOp::Lhu => u32::from(half_from(port, at)),
    }
}

/// Puts the low bytes of a value at an aligned address whose line is held.
pub fn store_to<P: Port>(port: &mut P, op: StoreOp, at: u32, value: u32)
    requires aligned { at % store_width op ≡ 0 }
    requires has { Has (P.span port.old) at }
    requires held { IsHeld (P.held port.old) (line_at (P.span port.old) at) }
    ensures bytes { P.bytes port.new ≡ put (P.bytes port.old) (at - first (P.span port.old)) (store_bytes op value) }
    ensures span { P.span port.new ≡ P.span port.old }
    ensures stops { P.stops port.new ≡ P.stops port.old }
    ensures did { PortMade P.did_touch P.did_poke port.old (poke_calls (addressed at (store_bytes op value))) port.new }
{
    let bytes = value.to_le_bytes();
    match op {
        StoreOp::Sb => port.poke(at, bytes[0]),
        StoreOp::Sh => {
            port.poke(at, bytes[0]);
            port.poke(at + 1, bytes[1]);
        }
        StoreOp::Sw => {
            port.poke(at, bytes[0]);
            port.poke(at + 1, bytes[1]);
            port.poke(at + 2, bytes[2]);
            port.poke(at + 3, bytes[3]);
        }
    }
}
