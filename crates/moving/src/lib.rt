// An old file, and the same file with every 2 stored as 0: what becomes of its list, and that it is what the writer makes of its lists.
#![tactic(auto)]
