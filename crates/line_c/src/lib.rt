// The line solver for programs in C: `uint32_t line_eliminate(const int64_t *line, size_t n, int64_t *out, size_t room)`.
#![tactic(auto)]

ghost use Rattle.std.specs.Prelude.{◌≡◌, length};
ghost use Rattle.line.specs.Solve.{solve_answer, solve_after};
ghost use Rattle.line.specs.Elimination.{elimination};
ghost use Rattle.line_c.specs.Code.{code};

use line::elimination::Elimination;
use line::solver::LineSolver;

// Solves a line by elimination: 0, or the number of the refusal; the place of a number beyond the limit is not told.
// What no contract can ask of a caller in C: both pointers lead to as many numbers as is said, and these do not overlap.
#[unsafe(no_mangle)]
pub extern "C" fn line_eliminate(line: &[i64], out: &mut [i64]) -> u32
    ensures answer { result ≡ code (solve_answer line.now (length out.old)) }
    ensures after { out.new ≡ solve_after elimination line.now out.old }
{
    match Elimination.solve(line, out) {
        Ok(()) => 0,
        Err(fault) => u32::from(fault.number()),
    }
}

#[cfg(test)]
mod tests {
    use super::line_eliminate;

    #[test]
    fn answers_as_numbers(rt: HostRuntime) {
        let mut out = [9; 2];
        assert_eq!(rt; line_eliminate(&[4, 0], &mut out), 0);
        assert_eq!(rt; out, [5, -1]);
        assert_eq!(rt; line_eliminate(&[4], &mut out), 1);
        assert_eq!(rt; line_eliminate(&[4, 0, 0], &mut out), 2);
        assert_eq!(rt; line_eliminate(&[4, 5_000_001], &mut out), 3);
        assert_eq!(rt; out, [5, -1]);
    }
}
