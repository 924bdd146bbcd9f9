//! Going through a sorted set is looking at every number in order.

ghost use Rattle.tdf_events_queue.specs.Evaluation.{EvaluatesByList};

/// A list that names the triggered processes in rising order does for looking at every process.
pub fn law_evaluation()
    ensures { EvaluatesByList }
{}
