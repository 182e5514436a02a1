// What each operation with a state does with one record.
ghost use Rattle.std.specs.Prelude.{◌≡◌, ◌≤◌, ◌-◌, [], ◌∷◌, length, nat_lt, nat_le, cond, if◌then◌else◌, OnOk, OnSome, IfOk, option_and_then, ◌+ℤ◌};
ghost use Rattle.ff_node.specs.Next.{is_eos};
ghost use Rattle.ff_node.specs.Sends.{add};
ghost use Rattle.ff_ops.specs.OrderedOps.{differs, IsStep};
ghost use Rattle.ff_ops.specs.Rows.{in_range, number_in};
ghost use Rattle.ff_ops.specs.declared.ordered_op.OrderedOp.TheVariants.{Number, RunSum, Delta, Uniq};

use ff_node::{Next, Sends};
use ff_rec::{Field, MOST_FIELDS, NoMemory, Record, print_number};

// The count of `number` stands still here.
const LAST: u64 = (1 << 63) - 1;

/// The count becomes a new first field, and grows.
pub fn number(count: &mut u64, mut r: Record, out: &mut Sends) -> Result<(), NoMemory>
    ensures { OnOk result (IsStep (Number count.old) r out.old (Number count.new) out.new) }
{
    if r.len() == MOST_FIELDS {
        return out.reject(r);
    }
    let field = print_number(r.allocator(), i128::from(*count))?;
    if r.push_first(&field).is_err() {
        return Err(NoMemory);
    }
    *count = count.saturating_add(1).min(LAST);
    out.send(r)
}

/// The field becomes the sum so far.
pub fn run_sum(field: usize, sum: &mut i64, mut r: Record, out: &mut Sends) -> Result<(), NoMemory>
    ensures { OnOk result (IsStep (RunSum field sum.old) r out.old (RunSum field sum.new) out.new) }
{
    match sum_with(*sum, &r, field) {
        Some(more) => {
            *sum = more;
            r.set_number(field, more)?;
            out.send(r)
        }
        None => out.reject(r),
    }
}

// A sum and the number in a field together, where there is one and the sum is in range.
fn sum_with(sum: i64, r: &Record, field: usize) -> Option<i64>
    ensures sum { result ≡ option_and_then (λ x. in_range (sum +ℤ x)) (number_in field r.now) }
    ensures low { OnSome result (1 ≤ field) }
    ensures high { OnSome result (field ≤ length r.now) }
{
    let x = r.number(field)?;
    sum.checked_add(x)
}

/// The field becomes its number less the one before.
pub fn delta(field: usize, before: &mut i64, mut r: Record, out: &mut Sends) -> Result<(), NoMemory>
    ensures { OnOk result (IsStep (Delta field before.old) r out.old (Delta field before.new) out.new) }
{
    let Some(x) = r.number(field) else {
        return out.reject(r);
    };
    let Some(difference) = x.checked_sub(*before) else {
        return out.reject(r);
    };
    *before = x;
    r.set_number(field, difference)?;
    out.send(r)
}

/// The record is one of the first, and the last of them ends the node.
pub fn take(left: &mut u64, r: Record, out: &mut Sends) -> Result<Next, NoMemory>
    ensures left { OnOk result (left.new ≡ left.old - 1) }
    ensures sends { OnOk result (out.new ≡ add out.old (r ∷ []) []) }
    ensures mark { IfOk result (λ next. is_eos next ≡ nat_le left.old 1) }
{
    out.send(r)?;
    *left = left.saturating_sub(1);
    Ok(if *left == 0 { Next::Eos } else { Next::GoOn })
}

/// Nothing is sent for the first records.
pub fn skip(left: &mut u64, r: Record, out: &mut Sends) -> Result<(), NoMemory>
    ensures left { OnOk result (left.new ≡ left.old - 1) }
    ensures sends { OnOk result (out.new ≡ add out.old (if nat_lt 0 left.old then [] else r ∷ []) []) }
{
    if *left == 0 {
        return out.send(r);
    }
    *left -= 1;
    Ok(())
}

/// The record is sent where its field differs from the one before.
pub fn uniq(
    field: usize,
    before: &mut Option<Field>,
    r: Record,
    out: &mut Sends,
) -> Result<(), NoMemory>
    ensures { OnOk result (IsStep (Uniq field before.old) r out.old (Uniq field before.new) out.new) }
{
    let Some(bytes) = r.field(field) else {
        return out.reject(r);
    };
    if differs(before, bytes) {
        *before = Some(Field::of_plain(r.allocator(), bytes)?);
        return out.send(r);
    }
    Ok(())
}

// Whether bytes differ from the field before, if there was one.
fn differs(before: &Option<Field>, bytes: &[u8]) -> bool
    ensures { result ≡ differs before.now bytes.now }
{
    match before {
        Some(field) => field.bytes() != bytes,
        None => true,
    }
}
