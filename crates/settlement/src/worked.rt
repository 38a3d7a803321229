ghost use Rattle.settlement.specs.Worked.{WorkedFigures};

// The formulas give the worked figures: the operator's own examples and a few small ones.
pub fn worked_figures()
    ensures { WorkedFigures }
{}
