//! Lists set back in place, without memory.

ghost use Rattle.std.specs.Prelude.{◌≡◌, ◌+◌, ◌≤◌, length};
ghost use Rattle.tdf_expr_state.specs.Resets.{no_times, none_set, with_zeros};

/// No flag is set.
#[inline(always)]
pub(crate) fn unset(flags: &mut Vec<bool>)
    ensures { flags.new.items ≡ none_set flags.old.items }
{
    match flags.len() {
        1 => flags[0] = false,
        2 => {
            flags[0] = false;
            flags[1] = false;
        }
        _ => flags.fill(false),
    }
}

/// No time stands.
pub(crate) fn forget(times: &mut Vec<Option<u64>>)
    ensures { times.new.items ≡ no_times times.old.items }
{
    times.fill(None);
}

/// The numbers from `from` on, `count` of them, are 0.
#[inline(always)]
pub(crate) fn blank(numbers: &mut Vec<i128>, from: usize, count: usize)
    requires { from + count ≤ length numbers.old.items }
    ensures { numbers.new.items ≡ with_zeros from count numbers.old.items }
{
    match count {
        1 => numbers[from] = 0,
        2 => {
            numbers[from] = 0;
            numbers[from + 1] = 0;
        }
        _ => numbers[from..from + count].fill(0),
    }
}
