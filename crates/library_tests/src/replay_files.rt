//! The first example, as it stands in examples/first.csv, and its board.

pub const FIRST: &str = "kind,id,f1,f2,f3
contest,demo,Demo Cup,5:00:00,1:00:00
type,AC,correct,true,false
type,WA,wrong answer,false,true
type,CE,compile error,false,false
problem,a,A,Apples,0
team,t1,Alpha,,
team,t2,Beta,,
submission,t1,a,0:05:00,WA
submission,t1,a,0:07:00,CE
submission,t1,a,0:10:59.999,AC
submission,t2,a,0:30:00,AC
";

pub const FIRST_BOARD: &str = "Demo Cup
Public board, contest time 5:00:00.000, frozen
Rank  Team   Solved    Time          A
   1  Alpha       1      30      +3/10
   2  Beta        1      30      +1/30
";
