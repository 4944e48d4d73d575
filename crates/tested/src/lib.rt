// What may be counted on of every lent table that passes the table test (W4): how it is searched, and who owns whom in it. No code.
#![tactic(auto)]
