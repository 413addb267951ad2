// Worked values of lines, weights, rounding and panels, as a proved table.
#![tactic(auto)]

ghost use Rattle.worked.specs.Worked.{LevelTwo, SlopeTwo, EndOfThree, MiddleOfThree, WeightsPastAPlace, HalvesUpward, CornerPanel, CornerReadings};

// The table, one clause to a case. The function does nothing but carry it.
pub fn worked_values()
    ensures level { LevelTwo }
    ensures slope { SlopeTwo }
    ensures end { EndOfThree }
    ensures middle { MiddleOfThree }
    ensures weights { WeightsPastAPlace }
    ensures halves { HalvesUpward }
    ensures corner { CornerPanel }
    ensures readings { CornerReadings }
{}
