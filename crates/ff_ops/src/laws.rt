// What the folds of the table send and reject for a whole list.
ghost use Rattle.ff_ops.specs.Extremes.{MinIsLeast, MaxIsGreatest, RejectsNumberless};
ghost use Rattle.ff_ops.specs.FoldSums.{TallyIsLength, TotalIsDifference};
ghost use Rattle.ff_ops.specs.KeyedSums.{TallybyIsCounts, TallybyRejectsLacking, TotalbyIsTotals, TotalbyRejectsLacking};

/// `tally` sends the number of the records, as far as a count of 64 bits tells.
pub fn tally_is_the_number_of_records()
    ensures { TallyIsLength }
{}

/// `total` sends the sum of the numbers above 0 less that of the absolute values of those below, each at most 2^126.
pub fn total_is_the_difference_of_two_sums()
    ensures { TotalIsDifference }
{}

/// `min` sends the least of the numbers in its field, where there is one.
pub fn min_is_the_least_number()
    ensures { MinIsLeast }
{}

/// `max` sends the greatest of the numbers in its field, where there is one.
pub fn max_is_the_greatest_number()
    ensures { MaxIsGreatest }
{}

/// `total`, `min` and `max` reject the records without a number in their field, and no others.
pub fn folds_of_numbers_reject_the_rest()
    ensures { RejectsNumberless }
{}

/// `tallyby` sends the contents of its field in byte order, each with the number of its records, as far as a count of
/// 64 bits tells.
pub fn tallyby_counts_each_content()
    ensures sends { TallybyIsCounts }
    ensures rejects { TallybyRejectsLacking }
{}

/// `totalby` sends the contents of its first field in byte order, each with what `total` says of its records. Records
/// without a number in the second field don't count.
pub fn totalby_totals_each_content()
    ensures sends { TotalbyIsTotals }
    ensures rejects { TotalbyRejectsLacking }
{}
