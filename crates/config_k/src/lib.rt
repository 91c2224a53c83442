// Configuration K of document 01: its stream, its tables, and the theorem that it loads. There is no code: everything stands in specs/.
#![tactic(auto)]
