//! The limits of plans as numbers, and the laws that every way of running a plan rests on. Each function has its law
//! for a contract, and does nothing.

ghost use Rattle.sb_pipeline.specs.Laws as law;

/// A plan has at most 12 transforms, and the gap of sessions is at most 10^12.
pub fn limits()
    ensures { law.Limits }
{}

/// The plan of one sum gives the sums of stream a by window and key, for each size of windows that there is.
pub fn sum_plan_gives_sums()
    ensures plan { law.SumPlanIsPlan }
    ensures sums { law.SumPlanGivesSums }
{}

/// The rows with times below a watermark begin those of each later watermark, so that rows can be written as soon as
/// they are closed.
pub fn rows_of_earlier_watermarks_come_first()
    ensures { law.RowsOfEarlierWatermarksComeFirst }
{}

/// All rows of a plan are all that it gives, sorted, if the records of its streams are in range: none is left out at
/// the end of the streams.
pub fn all_rows_are_the_sorted_output()
    ensures { law.AllRowsAreTheSortedOutput }
{}
