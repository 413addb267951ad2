// The laws of lines, each on the contract of a function that does nothing but carry it.
ghost use Rattle.line.specs.Laws.{Dominant, NearExact, OneSolution, Solvable, Sized, SizedAnswers, OfDominant, OfDoubled};

// Doubled ends are a dominant rule of ends.
pub fn doubled_ends_are_dominant()
    ensures { OfDoubled Dominant }
{}

// Residuals of at most g at every place put a line within g / 2 of the exact solution.
pub fn residuals_bound_the_distance()
    ensures dominant { OfDominant NearExact }
    ensures doubled { OfDoubled NearExact }
{}

// Every line with doubled ends has exactly one solution in fractions, and under no dominant rule has a line two.
pub fn lines_have_one_solution()
    ensures dominant { OfDominant OneSolution }
    ensures doubled { OfDoubled OneSolution }
    ensures some { OfDoubled Solvable }
{}

// A line with residuals of at most g for numbers of at most b stays within (6 b + g) / 2, and so does what a solver answers.
pub fn residuals_bound_the_size()
    ensures dominant { OfDominant Sized }
    ensures doubled { OfDoubled Sized }
    ensures answers { SizedAnswers }
{}
