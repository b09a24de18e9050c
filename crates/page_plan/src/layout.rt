ghost use Rattle.std.specs.Prelude.{◌≡◌, ◌≤◌, ◌*◌, ℕ, Some, MatchOption, length};
ghost use Rattle.std.specs.List.{sum_by};
ghost use Rattle.line_codec.specs.Layout.{is_exception, exceptions_of};
ghost use Rattle.page_plan.specs.KeptSizes.{size_told, sizes_told};
ghost use Rattle.page_plan.specs.Layout.{IsOrderFor};
ghost use Rattle.page_plan.specs.Sizes.{bytes_at};

/// The bytes that a slot of a packed page may have. All 64 slots of a page have the same.
pub const TARGETS: [u8; 7] = [4, 8, 12, 16, 20, 24, 28];

// Whether a line of this size is kept outside its slot. A line of zeros is in its slot, whatever its encoding takes.
fn overflows(size: u8, target: u8) -> bool
    ensures { result ≡ is_exception target (size_told (Some 1) size) }
{
    size == 0 || size > target
}

// How many lines of a page, or of a part of it, a slot of `target` bytes does not hold.
#[tactic(auto, unfolding(line_codec::specs::Layout::exceptions_of))]
pub(crate) fn exceptions(sizes: &[u8], target: u8) -> u8
    requires { length sizes.now ≤ 64 }
    ensures value { result ≡ exceptions_of (sizes_told (Some 1) sizes.now) target }
    ensures high { result ≤ length sizes.now }
{
    let mut count = 0;
    for index in 0..sizes.len() {
        if overflows(sizes[index], target) {
            count += 1;
        }
    }
    count
}

// The bytes that a line takes in a packed page, in its slot or outside.
fn bytes_of(zero: Option<u8>, size: u8, target: u8) -> u16
    ensures value { result ≡ bytes_at target (size_told zero size) }
    ensures most { result ≤ 255 }
{
    let size = match size {
        0 => None,
        1 => zero,
        _ => Some(size),
    };
    match size {
        Some(bytes) if bytes <= target => u16::from(bytes),
        _ => 64,
    }
}

// The bytes that the lines of a packed page, or of a part of it, take: those of its encoding where a slot of `target`
// bytes holds it, and else 64. A line of zeros takes those of `zero`.
pub(crate) fn encoded(zero: Option<u8>, sizes: &[u8], target: u8) -> u16
    requires { length sizes.now ≤ 64 }
    ensures value { result ≡ sum_by (bytes_at target) (sizes_told zero sizes.now) }
    ensures most { result ≤ 255 * length sizes.now }
{
    let mut bytes = 0;
    for index in 0..sizes.len() {
        bytes += bytes_of(zero, sizes[index], target);
    }
    bytes
}

// The least order of a block that has room for so many chunks.
pub(crate) fn order_for(chunks: u8) -> Option<u8>
    ensures { MatchOption result ((k : ℕ) → ¬ IsOrderFor chunks k) (λ k. IsOrderFor chunks k) }
{
    match chunks {
        0..=8 => Some(0),
        9..=16 => Some(1),
        17..=32 => Some(2),
        _ => None,
    }
}
