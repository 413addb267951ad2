// The residuals of a line.
ghost use Rattle.std.specs.Prelude.{◌≡◌, pos, ◌+ℤ◌, ◌-ℤ◌, ◌*ℤ◌};
ghost use Rattle.line.specs.Residual.{residual_answer};

// By how much the sum of the answer at a place misses six times the line's number there; none off the line, or if the lengths differ.
pub fn residual_at(answer: &[i64], line: &[i64], place: usize) -> Option<i128>
    ensures { result ≡ residual_answer answer.now line.now place }
{
    if answer.len() != line.len() {
        return None;
    }
    let i = place.checked_sub(1)?;
    let number = *line.get(i)?;
    // Beyond an end the number there stands once more.
    let before = answer[i.saturating_sub(1)];
    let after = answer[place.min(answer.len() - 1)];
    Some(missed(before, answer[i], after, number))
}

// The sum of three neighbours, the one between four times, less six times the line's number.
fn missed(before: i64, own: i64, after: i64, number: i64) -> i128
    ensures { result ≡ ((before +ℤ pos 4 *ℤ own) +ℤ after) -ℤ pos 6 *ℤ number }
{
    i128::from(before) + 4 * i128::from(own) + i128::from(after) - 6 * i128::from(number)
}
