// The marks of lines: which are current, which go stale, and the grade of each. Functions of a slice and not methods of a struct around it: the
// definitions speak of lists of marks, and a struct would only stand between.
ghost use Rattle.std.specs.Prelude.{◌≡◌, replicate};
ghost use Rattle.std.specs.List.{list_all};
ghost use Rattle.panel.specs.declared.record.Mark.TheVariants.{Unrun};
ghost use Rattle.panel.specs.Calls.{mark, grade_of, is_current, stale, stale_at, ran_at, all_current};
ghost use Rattle.panel.specs.Reading.{greatest};

use crate::record::Mark;

// No line has run.
pub(crate) fn no_marks() -> [Mark; 64]
    ensures { result ≡ replicate 64 Unrun }
{
    [Mark::Unrun; 64]
}

// Every line goes stale and keeps its grade.
pub(crate) fn let_go(marks: &mut [Mark])
    ensures { marks.new ≡ stale marks.old }
{
    for mark in marks {
        *mark = mark.let_go();
    }
}

// One line goes stale and keeps its grade.
pub(crate) fn let_go_at(marks: &mut [Mark], line: usize)
    ensures { marks.new ≡ stale_at marks.old line }
{
    let i = line.saturating_sub(1);
    if i < marks.len() {
        marks[i] = marks[i].let_go();
    }
}

// A line ran by a solver of this grade.
pub(crate) fn run_at(marks: &mut [Mark], line: usize, grade: u8)
    ensures { marks.new ≡ ran_at marks.old line grade }
{
    let i = line.saturating_sub(1);
    if i < marks.len() {
        marks[i] = Mark::Current(grade);
    }
}

// The mark of a line, and that of a line that never ran if there is no such line.
pub(crate) fn mark_of(marks: &[Mark], line: usize) -> Mark
    ensures { result ≡ mark marks.now line }
{
    marks
        .get(line.saturating_sub(1))
        .copied()
        .unwrap_or(Mark::Unrun)
}

// Whether a line is current.
pub(crate) fn is_current(marks: &[Mark], line: usize) -> bool
    ensures { result ≡ is_current (mark marks.now line) }
{
    mark_of(marks, line).is_current()
}

// Whether lines 1 to `count` are all current.
pub(crate) fn all_current(marks: &[Mark], count: usize) -> bool
    ensures { result ≡ all_current count marks.now }
{
    (0..count).all(|i| is_current(marks, i + 1))
}

// Whether these lines are all current.
pub(crate) fn are_current(marks: &[Mark], lines: &[usize]) -> bool
    ensures { result ≡ list_all (λ line. is_current (mark marks.now line)) lines.now }
{
    lines.iter().all(|&line| is_current(marks, line))
}

// The greatest grade of lines 1 to `count`.
pub(crate) fn greatest_grade(marks: &[Mark], count: usize) -> u8
    ensures { result ≡ greatest (λ i. grade_of (mark marks.now i)) count }
{
    let mut most = 0;
    // Each mark copied whole: by reference the machine code fetches states and grades apart, and a reading takes up to two fifths more time.
    for mark in marks[..count.min(marks.len())].iter().copied() {
        most = mark.grade().max(most);
    }
    most
}
