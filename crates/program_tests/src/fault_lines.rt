//! Task files with a fault, each with the line that tells the first one.

/// A case a line, which goes on after `\`: the file, an arrow, the line on standard error.
pub const FAULT_LINES: &str = " => tasks missing top graph
graph = 1 => tasks wrong kind top graph
graph = {} => tasks wrong kind top graph
graph = 'g' => tasks wrong kind top graph
graph = [1] => tasks wrong kind top graph
graph = [{}, 1] => tasks wrong kind top graph
graph = [] => tasks missing top graph
grahp = [] => tasks unknown key in top
soft = 0 => tasks out of range top soft 0
soft = 1025 => tasks out of range top soft 1025
soft = -1 => tasks out of range top soft -1
soft = 9223372036854775807 => tasks out of range top soft 9223372036854775807
soft = -9223372036854775808 => tasks out of range top soft -9223372036854775808
soft = 1.0 => tasks wrong kind top soft
soft = '1' => tasks wrong kind top soft
soft = true => tasks wrong kind top soft
soft = 1979-05-27 => tasks wrong kind top soft
soft = [1] => tasks wrong kind top soft
soft = 1 => tasks missing top graph
soft = 1024 => tasks missing top graph
graph => tasks not toml
graph =  => tasks not toml
graph = [ => tasks not toml
= 1 => tasks not toml
soft = 1 soft = 2 => tasks not toml
soft = 01 => tasks not toml
soft = 1_ => tasks not toml
[graph => tasks not toml
graph = [{ name = 'g', name = 'h' }] => tasks not toml
soft = 1e => tasks not toml
'soft = 1 => tasks not toml
soft = 9223372036854775808 => tasks not toml
graph = [{ name = 'g', period = 8, color = 1, task = [{ name = 'a', wcet = 1 }] }] \
    => tasks unknown key in graph 0
graph = [{ name = 'g', period = 8, wcet = 1, task = [{ name = 'a', wcet = 1 }] }] \
    => tasks unknown key in graph 0
graph = [{ name = 'g', period = 8, after = [], task = [{ name = 'a', wcet = 1 }] }] \
    => tasks unknown key in graph 0
graph = [{ period = 8, task = [{ name = 'a', wcet = 1 }] }] => tasks missing graph 0 name
graph = [{ name = 'g', task = [{ name = 'a', wcet = 1 }] }] => tasks missing graph 0 period
graph = [{ name = 'g', period = 8 }] => tasks missing graph 0 task
graph = [{ name = 1, period = 8, task = [{ name = 'a', wcet = 1 }] }] \
    => tasks wrong kind graph 0 name
graph = [{ name = '', period = 8, task = [{ name = 'a', wcet = 1 }] }] \
    => tasks bad name graph 0 name
graph = [{ name = '9x', period = 8, task = [{ name = 'a', wcet = 1 }] }] \
    => tasks bad name graph 0 name
graph = [{ name = '_g', period = 8, task = [{ name = 'a', wcet = 1 }] }] \
    => tasks bad name graph 0 name
graph = [{ name = 'a b', period = 8, task = [{ name = 'a', wcet = 1 }] }] \
    => tasks bad name graph 0 name
graph = [{ name = 'a.b', period = 8, task = [{ name = 'a', wcet = 1 }] }] \
    => tasks bad name graph 0 name
graph = [{ name = 'abcdefghijklmnopqrstuvwxy', period = 8, task = [{ name = 'a', wcet = 1 }] }] \
    => tasks bad name graph 0 name
graph = [{ name = ['g'], period = 8, task = [{ name = 'a', wcet = 1 }] }] \
    => tasks wrong kind graph 0 name
graph = [{ name = 'g', period = 0, task = [{ name = 'a', wcet = 1 }] }] \
    => tasks out of range graph 0 period 0
graph = [{ name = 'g', period = 8193, task = [{ name = 'a', wcet = 1 }] }] \
    => tasks out of range graph 0 period 8193
graph = [{ name = 'g', period = -8, task = [{ name = 'a', wcet = 1 }] }] \
    => tasks out of range graph 0 period -8
graph = [{ name = 'g', period = 8.0, task = [{ name = 'a', wcet = 1 }] }] \
    => tasks wrong kind graph 0 period
graph = [{ name = 'g', period = '8', task = [{ name = 'a', wcet = 1 }] }] \
    => tasks wrong kind graph 0 period
graph = [{ name = 'g', period = {}, task = [{ name = 'a', wcet = 1 }] }] \
    => tasks wrong kind graph 0 period
graph = [{ name = 'g', period = 8, offset = 8, task = [{ name = 'a', wcet = 1 }] }] \
    => tasks out of range graph 0 offset 8
graph = [{ name = 'g', period = 8, offset = -1, task = [{ name = 'a', wcet = 1 }] }] \
    => tasks out of range graph 0 offset -1
graph = [{ name = 'g', period = 8, offset = 0.0, task = [{ name = 'a', wcet = 1 }] }] \
    => tasks wrong kind graph 0 offset
graph = [{ name = 'g', period = 8, offset = false, task = [{ name = 'a', wcet = 1 }] }] \
    => tasks wrong kind graph 0 offset
graph = [{ name = 'g', period = 8, deadline = 0, task = [{ name = 'a', wcet = 1 }] }] \
    => tasks out of range graph 0 deadline 0
graph = [{ name = 'g', period = 8, deadline = 9, task = [{ name = 'a', wcet = 1 }] }] \
    => tasks out of range graph 0 deadline 9
graph = [{ name = 'g', period = 8, deadline = -2, task = [{ name = 'a', wcet = 1 }] }] \
    => tasks out of range graph 0 deadline -2
graph = [{ name = 'g', period = 8, deadline = '8', task = [{ name = 'a', wcet = 1 }] }] \
    => tasks wrong kind graph 0 deadline
graph = [{ name = 'g', period = 8, offset = 3, deadline = 6, task = [{ name = 'a', wcet = 1 }] }] \
    => tasks out of range graph 0 deadline 6
graph = [{ name = 'g', period = 8, offset = 8, deadline = 9, task = [{ name = 'a', wcet = 1 }] }] \
    => tasks out of range graph 0 offset 8
graph = [{ name = 'g', period = 8, task = 1 }] => tasks wrong kind graph 0 task
graph = [{ name = 'g', period = 8, task = [] }] => tasks missing graph 0 task
graph = [{ name = 'g', period = 8, task = {} }] => tasks wrong kind graph 0 task
graph = [{ name = 'g', period = 8, task = [{}, 2] }] => tasks wrong kind graph 0 task
graph = [{ name = 'g', period = 8, task = ['a'] }] => tasks wrong kind graph 0 task
graph = [{ name = 'g', period = 8, \
    task = [{}, {}, {}, {}, {}, {}, {}, {}, {}, {}, {}, {}, {}, {}, {}, {}, {}, {}, {}, {}, {}, \
    {}, {}, {}, {}, {}, {}, {}, {}, {}, {}, {}, {}] }] => tasks too many graph 0 task 33
graph = [{ name = 'g', period = 8, task = [{ name = 'a' }] }] => tasks missing graph 0 task 0 wcet
graph = [{ name = 'g', period = 8, task = [{ wcet = 1 }] }] => tasks missing graph 0 task 0 name
graph = [{ name = 'g', period = 8, task = [{}] }] => tasks missing graph 0 task 0 name
graph = [{ name = 'g', period = 8, task = [{ name = 'a', wcet = 1, period = 8 }] }] \
    => tasks unknown key in graph 0 task 0
graph = [{ name = 'g', period = 8, task = [{ name = 'a', wcet = 1 }, { name = 'b' }] }] \
    => tasks missing graph 0 task 1 wcet
graph = [{ name = 'g', period = 8, task = [{ name = 'a', wcet = 0 }] }] \
    => tasks out of range graph 0 task 0 wcet 0
graph = [{ name = 'g', period = 8, task = [{ name = 'a', wcet = 8193 }] }] \
    => tasks out of range graph 0 task 0 wcet 8193
graph = [{ name = 'g', period = 8, task = [{ name = 'a', wcet = -1 }] }] \
    => tasks out of range graph 0 task 0 wcet -1
graph = [{ name = 'g', period = 8, task = [{ name = 'a', wcet = 2.0 }] }] \
    => tasks wrong kind graph 0 task 0 wcet
graph = [{ name = 'g', period = 8, task = [{ name = 'a', wcet = '2' }] }] \
    => tasks wrong kind graph 0 task 0 wcet
graph = [{ name = 'g', period = 8, task = [{ name = 'a', wcet = [] }] }] \
    => tasks wrong kind graph 0 task 0 wcet
graph = [{ name = 'g', period = 8, task = [{ name = 'a', wcet = 1, after = 'b' }] }] \
    => tasks wrong kind graph 0 task 0 after
graph = [{ name = 'g', period = 8, task = [{ name = 'a', wcet = 1, after = [1] }] }] \
    => tasks wrong kind graph 0 task 0 after
graph = [{ name = 'g', period = 8, task = [{ name = 'a', wcet = 1, after = {} }] }] \
    => tasks wrong kind graph 0 task 0 after
graph = [{ name = 'g', period = 8, \
    task = [{ name = 'a', wcet = 1, after = ['b', 'b', 'b', 'b', 'b', 'b', 'b', 'b', 'b', 'b', \
    'b', 'b', 'b', 'b', 'b', 'b', 'b', 'b', 'b', 'b', 'b', 'b', 'b', 'b', 'b', 'b', 'b', 'b', 'b', \
    'b', 'b', 'b'] }] }] => tasks too many graph 0 task 0 after 32
graph = [{ name = 'g', period = 8, task = [{ name = 'a', wcet = 1 }, { name = '-b', wcet = 1 }] }] \
    => tasks bad name graph 0 task 1 name
sporadic = 1 => tasks missing top graph
graph = [{ name = 'g', period = 8, task = [{ name = 'a', wcet = 1 }, { name = 'b', wcet = 1 }, \
    { name = 'a', wcet = 1 }] }] => tasks doubled graph 0 task 2 name
graph = [{ name = 'g', period = 8, task = [{ name = 'a', wcet = 1 }] }, { name = 'h', period = 8, \
    task = [{ name = 'a', wcet = 1 }] }, { name = 'g', period = 8, \
    task = [{ name = 'a', wcet = 1 }] }] => tasks doubled graph 2 name
graph = [{ name = 'g', period = 8192, task = [{ name = 'a', wcet = 1 }] }, \
    { name = 'h', period = 8191, task = [{ name = 'a', wcet = 1 }] }] \
    => tasks cycle too long 67100672
graph = [{ name = 'g', period = 8192, task = [{ name = 'a', wcet = 1 }] }, \
    { name = 'h', period = 3, task = [{ name = 'a', wcet = 1 }] }] => tasks cycle too long 24576
graph = [{ name = 'g', period = 128, task = [{ name = 'a', wcet = 1 }] }, \
    { name = 'h', period = 81, task = [{ name = 'a', wcet = 1 }] }, { name = 'i', period = 5, \
    task = [{ name = 'a', wcet = 1 }] }] => tasks cycle too long 10368
graph = [{ name = 'g', period = 2, task = [{ name = 'a', wcet = 1 }] }, \
    { name = 'h', period = 8191, task = [{ name = 'a', wcet = 1 }] }] => tasks cycle too long 16382
graph = [{ name = 'g', period = 8, task = [{ name = 'a', wcet = 1, after = ['a'] }] }] \
    => tasks loop graph 0 task 0
graph = [{ name = 'g', period = 8, task = [{ name = 'a', wcet = 1 }, \
    { name = 'b', wcet = 1, after = ['c'] }, { name = 'c', wcet = 1, after = ['b'] }] }] \
    => tasks loop graph 0 task 1
graph = [{ name = 'g', period = 8, task = [{ name = 'a', wcet = 1, after = ['b'] }, \
    { name = 'b', wcet = 1, after = ['c'] }, { name = 'c', wcet = 1, after = ['a'] }] }] \
    => tasks loop graph 0 task 0
graph = [{ name = 'g', period = 8, task = [{ name = 'a', wcet = 1, after = ['b', 'b'] }, \
    { name = 'b', wcet = 1 }] }] => tasks doubled graph 0 task 0 after
graph = [{ name = 'g', period = 8, task = [{ name = 'a', wcet = 1, after = ['x'] }, \
    { name = 'b', wcet = 1 }] }] => tasks no such task graph 0 task 0 after
graph = [{ name = 'g', period = 8, task = [{ name = 'a', wcet = 1, after = [''] }] }] \
    => tasks no such task graph 0 task 0 after
graph = [{ name = 'g', period = 8, task = [{ name = 'a', wcet = 1, after = ['x'] }, \
    { name = 'a', wcet = 1 }] }] => tasks doubled graph 0 task 1 name
graph = [{ name = 'g', period = 8, task = [{ name = 'a', wcet = 1, after = ['a', 'x'] }] }] \
    => tasks no such task graph 0 task 0 after
graph = [{ name = 'g', period = 8, task = [{ name = '9', wcet = 0 }] }] \
    => tasks bad name graph 0 task 0 name
graph = [{ period = 8, color = 1, task = [{ name = 'a', wcet = 1 }] }] \
    => tasks unknown key in graph 0
graph = [{ name = 'g', period = 0, task = [{ name = 'a', wcet = 1 }] }, { name = '9' }] \
    => tasks out of range graph 0 period 0
graph = [{ name = 'g', period = 8, task = [{ name = 'a', wcet = 1 }] }, { period = 8 }] \
    => tasks missing graph 1 name
graph = [{}, {}, {}, {}, {}, {}, {}, {}, {}, {}, {}, {}, {}, {}, {}, {}, {}, {}, {}, {}, {}, {}, \
    {}, {}, {}, {}, {}, {}, {}, {}, {}, {}, {}] => tasks too many top graph 33
graph = [{ name = 'g', period = 8, task = [{ name = 'a', wcet = 1, color = 1 }] }] \
    => tasks unknown key in graph 0 task 0
color = 1 => tasks unknown key in top
graph = [{ name = 'g', period = 8, task = [{ name = 'a', wcet = 1 }] }, \
    { name = 'h', period = 7, offset = 7, task = [{ name = 'a', wcet = 1 }] }] \
    => tasks out of range graph 1 offset 7
graph = [{ name = 'g', period = 8, task = [{ name = 'a', wcet = 1 }] }, { name = 'g', period = 8, \
    task = [{ name = 'a', wcet = 1 }] }] => tasks doubled graph 1 name
graph = [{ name = 'g', task = [] }] => tasks missing graph 0 period
graph = [{ name = 'g', period = 8, task = [{ name = 'a', wcet = 2, after = ['b'] }, \
    { name = 'b', wcet = 1, after = ['a'] }] }] => tasks loop graph 0 task 0
graph = [{ name = 'g', period = 8, task = [{ name = 'a', wcet = 2 }, \
    { name = 'b', wcet = 1, after = ['x'] }] }] => tasks no such task graph 0 task 1 after
graph = [{ name = 'g', period = 8, task = [{ name = 'a', wcet = 2 }, { name = 'a', wcet = 1 }] }] \
    => tasks doubled graph 0 task 1 name
graph = [{ name = 'g', period = 8, task = [{ name = 'a', wcet = 2 }, \
    { name = 'b', wcet = 1, after = ['a', 'a'] }] }] => tasks doubled graph 0 task 1 after
graph = [{ name = 'abcdefghijklmnopqrstuvwx' }] => tasks missing graph 0 period
graph = [{ name = 'g', period = 8192 }] => tasks missing graph 0 task
graph = [{ name = 'g', period = 8, offset = 7 }] => tasks missing graph 0 task
graph = [{ name = 'g', offset = -1, period = 0 }] => tasks out of range graph 0 period 0
graph = [{ name = 'g', period = 8, task = [{}] }, { wcet = 1 }] => tasks missing graph 0 task 0 name
graph = [{ name = 'g', period = 8, task = [{ name = 'a', wcet = 1 }] }, { wcet = 1 }] \
    => tasks unknown key in graph 1
graph = [{ name = 'g', period = 8, task = [{ name = 'a b', deadline = 1 }] }] \
    => tasks unknown key in graph 0 task 0
graph = [{ name = 'g', period = 8, task = [{ name = 'a', wcet = 8192, after = ['b', 1] }] }] \
    => tasks wrong kind graph 0 task 0 after";
