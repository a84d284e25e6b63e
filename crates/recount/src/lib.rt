// No code: a table that listens to any sequence of calls from power-on only listens, and its counts are a recount of all lines.
#![tactic(auto)]
