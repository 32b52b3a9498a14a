//! Task sets, and what the commands print of them.

/// A graph of one task, with stretches of its cycle without jobs.
pub const OFFSET: &str = "[[graph]]
name = 'h'
period = 6
offset = 2
deadline = 3
[[graph.task]]
name = 'w'
wcet = 2
";

/// Two graphs. The span of the second borrows from that of the first.
pub const BORROWING: &str = "[[graph]]
name = 'p'
period = 10
deadline = 4
[[graph.task]]
name = 'w'
wcet = 1
[[graph]]
name = 'q'
period = 10
[[graph.task]]
name = 'w'
wcet = 8
";

/// Two tasks in a row.
pub const PAIR: &str = "[[graph]]
name = 'g'
period = 8
[[graph.task]]
name = 'a'
wcet = 2
[[graph.task]]
name = 'b'
wcet = 1
after = ['a']
";

/// The pair beside an alarm.
pub const ALARM: &str = "[[graph]]
name = 'g'
period = 8
task = [{ name = 'a', wcet = 2 }, { name = 'b', wcet = 1, after = ['a'] }]
[[sporadic]]
name = 'alarm'
wcet = 1
separation = 8
deadline = 2
";

/// The pair, where one soft job may wait.
pub const NARROW: &str = "soft = 1
[[graph]]
name = 'g'
period = 8
task = [{ name = 'a', wcet = 2 }, { name = 'b', wcet = 1, after = ['a'] }]
";

/// A flight controller without its sporadic task.
pub const FLIGHT: &str = "[[graph]]
name = 'imu'
period = 10
task = [
    { name = 'read', wcet = 1 },
    { name = 'fuse', wcet = 1, after = ['read'] },
    { name = 'ctl', wcet = 1, after = ['fuse'] },
]
[[graph]]
name = 'gps'
period = 20
task = [
    { name = 'read', wcet = 1 },
    { name = 'fix', wcet = 2, after = ['read'] },
    { name = 'nav', wcet = 1, after = ['fix'] },
]
[[graph]]
name = 'link'
period = 40
task = [
    { name = 'recv', wcet = 2 },
    { name = 'plan', wcet = 3, after = ['recv'] },
    { name = 'send', wcet = 1, after = ['plan'] },
]
";

/// One job that takes the whole of the longest cycle.
pub const LONGEST: &str =
    "graph = [{ name = 'g', period = 8192, task = [{ name = 'a', wcet = 8192 }] }]";

/// Two windows that meet.
pub const SPLIT: &str = "graph = [
    { name = 'c', period = 10, offset = 5, deadline = 2, task = [{ name = 'a', wcet = 2 }] },
    { name = 'd', period = 10, offset = 6, deadline = 1, task = [{ name = 'a', wcet = 1 }] },
]";

/// A window with more work than slots, in a cycle with room enough.
pub const CAMERA: &str = "graph = [
    { name = 'camera', period = 20, offset = 5, deadline = 4, task = [{ name = 'a', wcet = 3 }] },
    { name = 'lidar', period = 20, offset = 6, deadline = 3, task = [{ name = 'a', wcet = 2 }] },
    { name = 'log', period = 20, task = [{ name = 'a', wcet = 3 }] },
]";

/// Three tasks in a row that come too late.
pub const CHAIN: &str = "[[graph]]
name = 'g'
period = 10
deadline = 3
task = [
    { name = 'a', wcet = 2 },
    { name = 'b', wcet = 2, after = ['a'] },
    { name = 'c', wcet = 2, after = ['b'] },
]
";

/// More work than slots.
pub const OVERLOAD: &str =
    "graph = [{ name = 'g', period = 2, task = [{ name = 'a', wcet = 3 }] }]";

/// How much each task of the pair and its alarm may grow.
pub const ALARM_MARGINS: &str = "margin g.a 4 0 8 9
margin g.b 4 0 8 9
margin alarm 1 0 2 3
";

/// Two slots of the two graphs.
pub const BORROWING_2: &str = "0 start | 0-4:1 4-10:-2 10-14:1 14-20:-2 20-24:1 24-30:-2
0 run p.w#0 | 1-4:1 4-10:-2 10-14:1 14-20:-2 20-24:1 24-30:-2
1 run q.w#0 | 2-4:1 4-10:-1 10-14:1 14-20:-2 20-24:1 24-30:-2
2 end
";

/// One slot of the offset set.
pub const OFFSET_1: &str = "0 start | 0-2:2 2-5:1 5-6:1 6-8:2 8-11:1 11-12:1 12-14:2 14-17:1 +1
0 idle | 1-2:1 2-5:1 5-6:1 6-8:2 8-11:1 11-12:1 12-14:2 14-17:1 +1
1 end
";

/// The start of a trace of the pair.
pub const PAIR_START: &str = "0 start | 0-7:5 7-8:0 8-15:5 15-16:0 16-23:5 23-24:0
";

/// One slot of the pair.
pub const PAIR_1: &str = "0 start | 0-7:5 7-8:0 8-15:5 15-16:0 16-23:5 23-24:0
0 run g.a#0 | 1-7:5 7-8:0 8-15:5 15-16:0 16-23:5 23-24:0
1 end
";

/// The same, where it is idle.
pub const IDLE_1: &str = "0 start | 0-7:5 7-8:0 8-15:5 15-16:0 16-23:5 23-24:0
0 idle | 1-7:4 7-8:0 8-15:5 15-16:0 16-23:5 23-24:0
1 end
";

/// The same, where the idle slot is not counted.
pub const UNCOUNTED_1: &str = "0 start | 0-7:5 7-8:0 8-15:5 15-16:0 16-23:5 23-24:0
0 idle | 1-7:5 7-8:0 8-15:5 15-16:0 16-23:5 23-24:0
1 end
";

/// The same, where the second job runs first.
pub const UNREADY_1: &str = "0 start | 0-7:5 7-8:0 8-15:5 15-16:0 16-23:5 23-24:0
0 run g.b#0 | 1-7:5 7-8:0 8-15:5 15-16:0 16-23:5 23-24:0
1 end
";

/// A graph without a slot to spare.
pub const UNIT: &str = "graph = [{ name = 'u', period = 2, task = [{ name = 'w', wcet = 2 }] }]";

/// Two slots in which it is idle.
pub const LATE_2: &str = "0 start | 0-2:0 2-4:0 4-6:0
0 idle | 1-2:-1 2-4:0 4-6:0
1 idle | 2-4:0 4-6:0 6-8:0
2 end
";

/// Two cycles of the pair, and one slot more.
pub const PAIR_17: &str = "0 start | 0-7:5 7-8:0 8-15:5 15-16:0 16-23:5 23-24:0
0 run g.a#0 | 1-7:5 7-8:0 8-15:5 15-16:0 16-23:5 23-24:0
1 run g.a#0 | 2-7:5 7-8:0 8-15:5 15-16:0 16-23:5 23-24:0
2 run g.b#0 | 3-7:4 7-8:1 8-15:5 15-16:0 16-23:5 23-24:0
3 idle | 4-7:3 7-8:1 8-15:5 15-16:0 16-23:5 23-24:0
4 idle | 5-7:2 7-8:1 8-15:5 15-16:0 16-23:5 23-24:0
5 idle | 6-7:1 7-8:1 8-15:5 15-16:0 16-23:5 23-24:0
6 idle | 7-8:1 8-15:5 15-16:0 16-23:5 23-24:0
7 idle | 8-15:5 15-16:0 16-23:5 23-24:0 24-31:5 31-32:0
8 run g.a#1 | 9-15:5 15-16:0 16-23:5 23-24:0 24-31:5 31-32:0
9 run g.a#1 | 10-15:5 15-16:0 16-23:5 23-24:0 24-31:5 31-32:0
10 run g.b#1 | 11-15:4 15-16:1 16-23:5 23-24:0 24-31:5 31-32:0
11 idle | 12-15:3 15-16:1 16-23:5 23-24:0 24-31:5 31-32:0
12 idle | 13-15:2 15-16:1 16-23:5 23-24:0 24-31:5 31-32:0
13 idle | 14-15:1 15-16:1 16-23:5 23-24:0 24-31:5 31-32:0
14 idle | 15-16:1 16-23:5 23-24:0 24-31:5 31-32:0
15 idle | 16-23:5 23-24:0 24-31:5 31-32:0 32-39:5 39-40:0
16 run g.a#2 | 17-23:5 23-24:0 24-31:5 31-32:0 32-39:5 39-40:0
17 end
";

/// The table of the pair in the first version, a part in each line.
pub const PAIR_TABLE: &str = "SLOT\x01\0\x40\0\
    \x01\0\
    \x01g\x08\0\0\0\x08\0\x02\0\
    \x01a\x02\0\0\0\
    \x01b\x01\0\x01\0\0\0\
    \0\0\
    \x02\0\0\0\
    \0\0\0\0\0\0\0\0\x07\0\x02\0\
    \0\0\x01\0\0\0\x02\0\x08\0\x01\0\
    \x02\0\0\0\
    \0\0\x07\0\x02\0\x05\0\0\0\
    \x07\0\x08\0\x01\0\0\0\0\0";

/// The table of the pair that is written, in the second version.
pub const SECOND_TABLE: &str = "SLOT\x02\0\x40\0\0\0\
    \x01\0\
    \x01g\x08\0\0\0\0\0\0\0\x08\0\0\0\x02\0\
    \x01a\x02\0\0\0\0\0\
    \x01b\x01\0\0\0\x01\0\0\0\
    \0\0\
    \x02\0\0\0\
    \0\0\0\0\0\0\0\0\0\0\0\0\x07\0\0\0\x02\0\0\0\
    \0\0\x01\0\0\0\0\0\x02\0\0\0\x08\0\0\0\x01\0\0\0\
    \x02\0\0\0\
    \0\0\0\0\x07\0\0\0\x02\0\0\0\x05\0\0\0\0\0\0\0\
    \x07\0\0\0\x08\0\0\0\x01\0\0\0\0\0\0\0\0\0\0\0";

/// What both show.
pub const PAIR_PLAN: &str = "plan cycle 8 soft 64 graphs 1 sporadics 0 jobs 2 spans 2
job g.a#0 0 7 2
job g.b#0 2 8 1
span 0 7 2 5
span 7 8 1 0
";

/// The chart of four slots of the pair.
pub const PAIR_CHART: &str = "gantt 4
g.a  ##..
g.b  ..#.
firm ....
soft ....
";

/// The chart of four slots with soft work.
pub const SOFT_CHART: &str = "gantt 4
g.a  ...#
g.b  ....
firm ....
soft ###.
";

/// A job that ends early.
pub const EARLY_END_3: &str = "0 start | 0-7:5 7-8:0 8-15:5 15-16:0 16-23:5 23-24:0
0 run g.a#0 | 1-7:5 7-8:0 8-15:5 15-16:0 16-23:5 23-24:0
1 done 1 g.a#0 freed 1 | 1-7:6 7-8:0 8-15:5 15-16:0 16-23:5 23-24:0
1 idle | 2-7:5 7-8:0 8-15:5 15-16:0 16-23:5 23-24:0
2 run g.b#0 | 3-7:4 7-8:1 8-15:5 15-16:0 16-23:5 23-24:0
3 end
";

/// Soft work that runs at once, and soft work for which no place is left.
pub const SOFT_4: &str = "0 start | 0-7:5 7-8:0 8-15:5 15-16:0 16-23:5 23-24:0
0 soft 1 3 taken | 0-7:5 7-8:0 8-15:5 15-16:0 16-23:5 23-24:0
0 soft 2 1 full 1 | 0-7:5 7-8:0 8-15:5 15-16:0 16-23:5 23-24:0
0 run soft:1 | 1-7:4 7-8:0 8-15:5 15-16:0 16-23:5 23-24:0
1 run soft:1 | 2-7:3 7-8:0 8-15:5 15-16:0 16-23:5 23-24:0
2 run soft:1 | 3-7:2 7-8:0 8-15:5 15-16:0 16-23:5 23-24:0
3 run g.a#0 | 4-7:2 7-8:0 8-15:5 15-16:0 16-23:5 23-24:0
4 end
";

/// Arrivals of three kinds: an early end, one of a job that is not running, and a firm offer.
pub const KINDS: &str = "1,done,g.a#0\n1,done,g.a#0\n1,firm,6,6\n";

/// Two slots with them.
pub const KINDS_2: &str = "0 start | 0-7:5 7-8:0 8-15:5 15-16:0 16-23:5 23-24:0
0 run g.a#0 | 1-7:5 7-8:0 8-15:5 15-16:0 16-23:5 23-24:0
1 done 1 g.a#0 freed 1 | 1-7:6 7-8:0 8-15:5 15-16:0 16-23:5 23-24:0
1 done 2 g.a#0 notrunning | 1-7:6 7-8:0 8-15:5 15-16:0 16-23:5 23-24:0
1 firm 3 6 6 accepted | 1-7:0 7-8:0 8-15:5 15-16:0 16-23:5 23-24:0
1 run firm:3 | 2-7:0 7-8:0 8-15:5 15-16:0 16-23:5 23-24:0
2 end
";

/// A firm job that is withdrawn before it runs, and once more.
pub const WITHDRAWN_1: &str = "0 start | 0-7:5 7-8:0 8-15:5 15-16:0 16-23:5 23-24:0
0 firm 1 5 7 accepted | 0-7:0 7-8:0 8-15:5 15-16:0 16-23:5 23-24:0
0 withdraw 2 firm:1 freed 5 | 0-7:5 7-8:0 8-15:5 15-16:0 16-23:5 23-24:0
0 withdraw 3 firm:1 nojob | 0-7:5 7-8:0 8-15:5 15-16:0 16-23:5 23-24:0
0 run g.a#0 | 1-7:5 7-8:0 8-15:5 15-16:0 16-23:5 23-24:0
1 end
";

/// A firm job beside the pair that is withdrawn while it runs, and offered again at once.
pub const OFFERED_AGAIN_5: &str = "0 start | 0-7:5 7-8:0 8-15:5 15-16:0 16-23:5 23-24:0
0 firm 1 5 8 accepted | 0-7:0 7-8:-5 8-15:5 15-16:0 16-23:5 23-24:0
0 run g.a#0 | 1-7:0 7-8:-5 8-15:5 15-16:0 16-23:5 23-24:0
1 run g.a#0 | 2-7:0 7-8:-5 8-15:5 15-16:0 16-23:5 23-24:0
2 run g.b#0 | 3-7:0 7-8:-4 8-15:5 15-16:0 16-23:5 23-24:0
3 run firm:1 | 4-7:0 7-8:-3 8-15:5 15-16:0 16-23:5 23-24:0
4 withdraw 2 firm:1 freed 4 | 4-7:3 7-8:1 8-15:5 15-16:0 16-23:5 23-24:0
4 firm 3 4 5 accepted | 4-7:1 7-8:-2 8-9:-3 9-15:4 15-16:0 16-23:5 23-24:0
4 run firm:3 | 5-7:1 7-8:-1 8-9:-2 9-15:4 15-16:0 16-23:5 23-24:0
5 end
";

/// What stands against five slots within seven, beside the pair and the alarm.
pub const ALARM_WHY: &str = "0 firm 1 5 7 noroom 7 8 7 | 0-7:5 7-8:0 8-15:5 15-16:0 16-23:5 23-24:0
job g.a#0 2 7
arrival alarm 0
offer 5 7
";

/// A cycle of the pair with two slots that are due a cycle later, and the change to the borrowing
/// graphs after it.
pub const CHANGED_12: &str = "0 start | 0-7:5 7-8:0 8-15:5 15-16:0 16-23:5 23-24:0
0 run g.a#0 | 1-7:5 7-8:0 8-15:5 15-16:0 16-23:5 23-24:0
1 run g.a#0 | 2-7:5 7-8:0 8-15:5 15-16:0 16-23:5 23-24:0
2 run g.b#0 | 3-7:4 7-8:1 8-15:5 15-16:0 16-23:5 23-24:0
3 idle | 4-7:3 7-8:1 8-15:5 15-16:0 16-23:5 23-24:0
4 idle | 5-7:2 7-8:1 8-15:5 15-16:0 16-23:5 23-24:0
5 idle | 6-7:1 7-8:1 8-15:5 15-16:0 16-23:5 23-24:0
6 idle | 7-8:1 8-15:5 15-16:0 16-23:5 23-24:0
7 firm 1 2 3 accepted | 7-8:1 8-10:0 10-15:3 15-16:0 16-23:5 23-24:0
7 run firm:1 | 8-10:1 10-15:3 15-16:0 16-23:5 23-24:0 24-31:5 31-32:0
8 end
8 switch granted
8 old firm:1
9 new p.w#0
10 new q.w#0
11 new q.w#0
12 end
";

/// The same cycle with three such slots, of which two are left.
pub const UNCHANGED_8: &str = "0 start | 0-7:5 7-8:0 8-15:5 15-16:0 16-23:5 23-24:0
0 run g.a#0 | 1-7:5 7-8:0 8-15:5 15-16:0 16-23:5 23-24:0
1 run g.a#0 | 2-7:5 7-8:0 8-15:5 15-16:0 16-23:5 23-24:0
2 run g.b#0 | 3-7:4 7-8:1 8-15:5 15-16:0 16-23:5 23-24:0
3 idle | 4-7:3 7-8:1 8-15:5 15-16:0 16-23:5 23-24:0
4 idle | 5-7:2 7-8:1 8-15:5 15-16:0 16-23:5 23-24:0
5 idle | 6-7:1 7-8:1 8-15:5 15-16:0 16-23:5 23-24:0
6 idle | 7-8:1 8-15:5 15-16:0 16-23:5 23-24:0
7 firm 1 3 3 accepted | 7-8:0 8-10:-1 10-15:3 15-16:0 16-23:5 23-24:0
7 run firm:1 | 8-10:0 10-15:3 15-16:0 16-23:5 23-24:0 24-31:5 31-32:0
8 end
";
