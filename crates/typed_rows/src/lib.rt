//! Rows of a database as rows of a type: the effect of each kind of SQL statement on them, and of a transaction of
//! several, for any table.
#![tactic(auto)]
