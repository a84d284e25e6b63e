// No code: what the bench program is handed to write is the scenario's output; its lines read back and stand in 01's order.
#![tactic(auto)]
