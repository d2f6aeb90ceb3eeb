//! The limits of aggregations and of sessions as numbers, and the laws that every way of working out an aggregation,
//! sessions or a join rests on. Each function has its law for a contract, and does nothing.

ghost use Rattle.sb_windowed.specs.Laws as law;

/// An aggregation gives at most 16 of the greatest values, and the gap of sessions is at most 10^12.
pub fn limits()
    ensures { law.Limits }
{}

/// Each aggregation gives the same of values in another order.
pub fn aggregates_do_not_depend_on_order()
    ensures { law.AggregatesDoNotDependOnOrder }
{}

/// Records in another order give the same rows.
pub fn aggregate_rows_do_not_depend_on_order()
    ensures { law.AggregateRowsDoNotDependOnOrder }
{}

/// Records in another order give the same rows of sessions.
pub fn session_rows_do_not_depend_on_order()
    ensures { law.SessionRowsDoNotDependOnOrder }
{}

/// The sessions that end by a watermark are final.
pub fn closed_sessions_are_final()
    ensures { law.ClosedSessionsAreFinal }
{}

/// What is left then is given by the records whose sessions are open, and by what is later.
pub fn open_sessions_give_the_rest()
    ensures { law.OpenSessionsGiveTheRest }
{}

/// A session is cut between two neighbours in time just where the later one is the gap or more after the earlier one.
pub fn sessions_are_cut_at_gaps()
    ensures { law.SessionsAreCutAtGaps }
{}

/// The session of the last record of a key ends the gap after it.
pub fn last_records_end_sessions()
    ensures { law.LastRecordsEndSessions }
{}

/// Records in another order give the same rows of a join, in another order.
pub fn joins_do_not_depend_on_order()
    ensures { law.JoinsDoNotDependOnOrder }
{}

/// The rows of a join in the windows that a watermark closes depend on the records with times below it alone.
pub fn closed_joins_depend_on_earlier_records()
    ensures { law.ClosedJoinsDependOnEarlierRecords }
{}
