ghost use Rattle.cy_mean.specs.Laws.{CEventsEndOnce, CEventsGrow, SourceEventsEndOnce, SourceEventsGrow};

/// More budget only adds events at the end of what sources mean. A law; it does nothing.
pub fn more_budget_adds_events()
    ensures { SourceEventsGrow }
{}

/// What sources mean has at most one `end` or `stop`, and nothing after it. A law; it does nothing.
pub fn source_events_end_once()
    ensures { SourceEventsEndOnce }
{}

/// More steps only add events at the end of what C makes. A law; it does nothing.
pub fn more_steps_add_events()
    ensures { CEventsGrow }
{}

/// What C makes has at most one `end` or `stop`, and nothing after it. A law; it does nothing.
pub fn c_events_end_once()
    ensures { CEventsEndOnce }
{}
