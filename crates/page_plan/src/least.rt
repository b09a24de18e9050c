ghost use Rattle.std.specs.Prelude.{◌≡◌, ◌+◌, Some};
ghost use Rattle.line_codec.specs.Layout.{IsTarget};
ghost use Rattle.page_plan.specs.KeptSizes.{sizes_told};
ghost use Rattle.page_plan.specs.PagePlan.{IsLeastBelow, IsPlan, IsInRange, plan_of};

use crate::layout::{TARGETS, exceptions, order_for};
use crate::page_sizes::PageSizes;
use hier_types::{Codec, Line};

/// How a page is kept.
#[derive(Clone, Copy, Debug, PartialEq, Eq)]
pub enum PagePlan {
    /// All lines are zero, and no block is needed.
    Zero,
    /// Each line in its slot, or uncompressed in a chunk of its own.
    Packed {
        /// The block has 2^order units of 512 bytes; 0 to 2.
        order: u8,
        /// The bytes of each slot, one of [`TARGETS`](crate::TARGETS).
        target: u8,
        /// The lines that the slots do not hold; at most 64.
        exceptions: u8,
    },
    /// The lines uncompressed one after another, in a block of order 3, which is 4,096 bytes.
    Raw,
}

// The better of the plan by the targets below this one, and this one.
fn better(sizes: &[u8; 64], plan: PagePlan, target: u8) -> PagePlan
    requires is_target { IsTarget target }
    requires by_lower { IsLeastBelow target (sizes_told (Some 1) sizes.now) plan }
    ensures { IsLeastBelow (target + 4) (sizes_told (Some 1) sizes.now) result }
{
    let exceptions = exceptions(sizes, target);
    let Some(order) = order_for(1 + target + exceptions) else {
        return plan;
    };
    match plan {
        PagePlan::Packed {
            order: least,
            exceptions: fewest,
            ..
        } if least < order || least == order && fewest <= exceptions => plan,
        _ => PagePlan::Packed {
            order,
            target,
            exceptions,
        },
    }
}

// The least of all targets, for a page that is not zero.
pub(crate) fn least_plan(sizes: &[u8; 64]) -> PagePlan
    ensures { IsLeastBelow 32 (sizes_told (Some 1) sizes.now) result }
{
    let mut plan = PagePlan::Raw;
    for target in TARGETS {
        plan = better(sizes, plan, target);
    }
    plan
}

/// The plan of a page of these lines: Zero exactly where all of them are zero; else, of the targets with which a
/// block of order 0 to 2 holds the page, the one of the least order, then of the fewest exceptions, then the least
/// target itself; Raw exactly where there is none.
///
/// The stored size of each line that is not zero is asked for once, and the rest is [`PageSizes::plan`]. Linearly
/// compressed pages are those of Pekhimenko et al., MICRO 2013; the targets and blocks are this project's own.
pub fn plan(codec: Codec, page: &[Line; 64]) -> PagePlan
    ensures least { IsPlan codec page.now result }
    ensures value { result ≡ plan_of codec page.now }
    ensures in_range { IsInRange result }
{
    PageSizes::of(codec, page).plan()
}
