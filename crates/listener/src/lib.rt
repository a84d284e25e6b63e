// No code: a log beside any sequence of calls from power-on only listens, holds the latest and reads back.
#![tactic(auto)]
