// The laws of the texts: what the writers write, the readers read.
ghost use Rattle.text_writers.specs.Laws.{RulesBack, LogsBack, MaskLogsBack, RulesOnly, RulesDiffer, LogsOnly, LogsDiffer};
ghost use Rattle.text_writers.specs.Places.{RulesWithin, LogsWithin};

// The text of a table is read as the table, and the text of a log as its rows.
pub fn texts_round_trip()
    ensures rules { RulesBack }
    ensures logs { LogsBack }
    ensures mask_logs { MaskLogsBack }
{}

// A text that is read without fault is the text of what it gives, so no two texts give the same; a log text keeps its own names.
pub fn texts_are_unique()
    ensures rules { RulesOnly }
    ensures rules_differ { RulesDiffer }
    ensures logs { LogsOnly }
    ensures logs_differ { LogsDiffer }
{}

// A refusal tells a line of the text, and a field of that line.
pub fn refusals_stand_in_the_text()
    ensures rules { RulesWithin }
    ensures logs { LogsWithin }
{}
