// What holds of the rules, whatever functions keep them.
ghost use Rattle.ff_fn.specs.Laws.{StepsCommute};

/// Two numbers lead a fold to one state in either order.
pub fn two_steps_of_a_fold_commute()
    ensures { StepsCommute }
{}
