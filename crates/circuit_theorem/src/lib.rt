// Document 01's circuits, from their bytes, computed from the definitions. No code.
#![tactic(auto)]
