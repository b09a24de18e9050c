// One access of a trace over a port.
ghost use Rattle.std.specs.Prelude.{◌≡◌, [], ◌∷◌, IfOk, OnErr, OnOk};
ghost use Rattle.hier_types.specs.Causes.{Refuses, refusal_of};
ghost use Rattle.hier_types.specs.PortCalls.{MadeInOrder};
ghost use Rattle.hier_types.specs.Span.{line_at};
ghost use Rattle.rv_core.specs.Accesses.{IsAccess, accessed, address_of, load_op, pokes_of_access, store_op, value_of};

use crate::data::{loaded_from, store_to, touch_at};
use hier_types::{Access, NoSpace, Port};
use rv_decode::{LoadOp, StoreOp};

/// One access of data over a port, like the load or the store of its width: it touches the line of its address, and then
/// peeks or pokes its bytes. It gives the value that it loads, without a sign, or 0 for a store. A refused touch leaves
/// the bytes.
#[tactic(auto, using(crate::proofs::Lines::made_in_order))]
pub fn access<P: Port>(port: &mut P, asked: &Access) -> Result<u32, NoSpace>
    requires { IsAccess (P.span port.old) asked.now }
    ensures ok { IfOk result (λ value. value ≡ value_of (P.span port.old) asked.now (P.bytes port.old)) }
    ensures bytes { OnOk result (P.bytes port.new ≡ accessed (P.span port.old) asked.now (P.bytes port.old)) }
    ensures err { OnErr result (P.bytes port.new ≡ P.bytes port.old) }
    ensures span { P.span port.new ≡ P.span port.old }
    ensures cause { Refuses (P.stops port.old) (P.stops port.new) (P.crowded port.new) result }
    ensures made { MadeInOrder P.did_touch P.did_poke port.old (line_at (P.span port.old) (address_of asked.now) ∷ []) (pokes_of_access asked.now) (refusal_of result) port.new }
{
    match *asked {
        Access::Load { at, width } => {
            touch_at(port, at)?;
            Ok(loaded_from(port, load_op(width), at))
        }
        Access::Store { at, width, value } => {
            touch_at(port, at)?;
            store_to(port, store_op(width), at, value);
            Ok(0)
        }
    }
}

/// The load of 1, 2 or 4 bytes that extends no sign.
fn load_op(width: u8) -> LoadOp
    ensures { result ≡ load_op width }
{
    match width {
        1 => LoadOp::Lbu,
        2 => LoadOp::Lhu,
        _ => LoadOp::Lw,
    }
}

/// The store of 1, 2 or 4 bytes.
fn store_op(width: u8) -> StoreOp
    ensures { result ≡ store_op width }
{
    match width {
        1 => StoreOp::Sb,
        2 => StoreOp::Sh,
        _ => StoreOp::Sw,
    }
}
