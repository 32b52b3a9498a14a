//! Task files: sets that read, and the first faults of files.

use slot_core::{
    AFTER_LIMIT, Field, GRAPH_LIMIT, Part, Place, SPORADIC_LIMIT, TASK_LIMIT, Task, TaskFault,
    TaskSet,
};
use std::alloc::Global;
use std::fmt::Write;
use std::test::Fail;
use task_toml::read_tasks;

const SOFT: Place = Place {
    part: Part::Top,
    field: Field::Soft,
};

const GRAPHS: Place = Place {
    part: Part::Top,
    field: Field::Graph,
};

const SPORADICS: Place = Place {
    part: Part::Top,
    field: Field::Sporadic,
};

/// An array nested a hundred deep.
const NESTED: &[u8] = b"soft = \
    [[[[[[[[[[[[[[[[[[[[[[[[[[[[[[[[[[[[[[[[[[[[[[[[[[\
    [[[[[[[[[[[[[[[[[[[[[[[[[[[[[[[[[[[[[[[[[[[[[[[[[[1\
    ]]]]]]]]]]]]]]]]]]]]]]]]]]]]]]]]]]]]]]]]]]]]]]]]]]\
    ]]]]]]]]]]]]]]]]]]]]]]]]]]]]]]]]]]]]]]]]]]]]]]]]]]";

/// A graph that lacks its tasks, one with a task, and one whose task begins its entries.
const GRAPH: &str = "[[graph]]\nname = 'g'\nperiod = 8\n";

const ONE_TASK: &str = "graph = [{name = 'g', period = 8, task = [{name = 'a', wcet = 1}]}]\n";

const ENTRIES: &str =
    "[[graph]]\nname = 'g'\nperiod = 8\n[[graph.task]]\nname = 'a'\nwcet = 1\nafter = [";

/// A key of the first graph.
fn of_graph(field: Field) -> Place {
    Place {
        part: Part::Graph(0),
        field,
    }
}

/// A key of the first task.
fn of_task(field: Field) -> Place {
    Place {
        part: Part::Task(0, 0),
        field,
    }
}

#[test]
fn tells_faults_of_documents(rt: HostRuntime) -> Result<(), Fail> {
    let cases: [(&[u8], TaskFault); 13] = [
        (b"", TaskFault::Missing(GRAPHS)),
        (b"\xef\xbb\xbf", TaskFault::Missing(GRAPHS)),
        (b"soft = \"\xff\"", TaskFault::NotToml),
        (b"soft = ", TaskFault::NotToml),
        (b"soft = 1\nsoft = 1", TaskFault::NotToml),
        (b"soft = 1\rgraph = []\r", TaskFault::NotToml),
        (NESTED, TaskFault::NotToml),
        (b"soft = 1.0", TaskFault::WrongKind(SOFT)),
        (b"soft = 1025", TaskFault::OutOfRange(SOFT, 1025)),
        (
            b"soft = 9223372036854775807",
            TaskFault::OutOfRange(SOFT, i64::MAX),
        ),
        (b"soft = 0\nhard = 1", TaskFault::UnknownKey(Part::Top)),
        (b"graph = 1", TaskFault::WrongKind(GRAPHS)),
        (b"graph = [{}, 1]", TaskFault::WrongKind(GRAPHS)),
    ];
    for (index, (bytes, fault)) in cases.iter().enumerate() {
        assert!(rt; fault_of(rt.alloc(), bytes) == Some(*fault), "case {index}");
    }
    Ok(())
}

#[test]
fn tells_lists_past_their_limits(rt: HostRuntime) -> Result<(), Fail> {
    let alloc = rt.alloc();
    let cases = [
        ("", "[[graph]]\n", "", GRAPH_LIMIT as u32 + 1, GRAPHS),
        (
            GRAPH,
            "[[graph.task]]\n",
            "",
            TASK_LIMIT as u32 + 1,
            of_graph(Field::Task),
        ),
        (
            ENTRIES,
            "'b', ",
            "]",
            AFTER_LIMIT as u32 + 1,
            of_task(Field::After),
        ),
        (
            ONE_TASK,
            "[[sporadic]]\n",
            "",
            SPORADIC_LIMIT as u32 + 1,
            SPORADICS,
        ),
    ];
    for (front, item, back, count, place) in cases {
        let fault = fault_of_repeated(alloc, front, item, count, back)?;
        assert!(rt; fault == Some(TaskFault::TooMany(place, count)), "{place}");
    }
    Ok(())
}

/// The fault of a file with an item this many times, between a front and a back.
fn fault_of_repeated(
    alloc: Global,
    front: &str,
    item: &str,
    count: u32,
    back: &str,
) -> Result<Option<TaskFault>, Fail> {
    let text = repeated(alloc, front, item, count, back)?;
    Ok(fault_of(alloc, text.as_bytes()))
}

/// The fault of a file.
fn fault_of(alloc: Global, bytes: &[u8]) -> Option<TaskFault> {
    read_tasks(alloc, bytes).err()
}

/// The item this many times, between a front and a back.
fn repeated(
    alloc: Global,
    front: &str,
    item: &str,
    count: u32,
    back: &str,
) -> Result<String, Fail> {
    let mut text = String::new(alloc);
    text.push_str(front)?;
    for _ in 0..count {
        text.push_str(item)?;
    }
    text.push_str(back)?;
    Ok(text)
}

/// Files that read, and their sets.
const SETS: [(&str, &str); 4] = [
    (
        "[[graph]]\nname = 'p'\nperiod = 10\ndeadline = 4\n[[graph.task]]\nname = 'w'\nwcet = 1\n\
        [[graph]]\nname = 'q'\nperiod = 10\n[[graph.task]]\nname = 'w'\nwcet = 8",
        "soft 64 | p 10 0 4 : w 1 [] | q 10 0 10 : w 8 []",
    ),
    (
        "soft = 1024\nsporadic = []\n\
        graph = [{deadline = 3, task = [{wcet = 2, name = 'w', after = []}], offset = 2, \
        name = 'h', period = 6}]",
        "soft 1024 | h 6 2 3 : w 2 []",
    ),
    (
        "soft = 1\n[[graph]]\nname = 'h'\nperiod = 4096\noffset = 4095\n\
        [[graph.task]]\nname = 'A-b_9'\nwcet = 4096",
        "soft 1 | h 4096 4095 1 : A-b_9 4096 []",
    ),
    (
        "[[graph]]\nname = 'g'\nperiod = 8\n[[graph.task]]\nname = 'a'\nwcet = 2\n\
        [[graph.task]]\nname = 'b'\nwcet = 1\nafter = ['a']",
        "soft 64 | g 8 0 8 : a 2 [] : b 1 [0]",
    ),
];

/// A task after a later one, one of no name that is there, and itself.
const WRONG_ENTRIES: &str = "[[graph]]\nname = 'g'\nperiod = 8\n\
    [[graph.task]]\nname = 'a'\nwcet = 2\nafter = ['b', 'none', 'a']\n\
    [[graph.task]]\nname = 'b'\nwcet = 1";

#[test]
fn reads_sets(rt: HostRuntime) -> Result<(), Fail> {
    let alloc = rt.alloc();
    for (text, want) in SETS {
        let told = told(alloc, text)?;
        assert!(rt; told.as_str() == want, "{want}");
    }
    let fault = fault_of(alloc, WRONG_ENTRIES.as_bytes());
    assert!(rt; fault == Some(TaskFault::NoSuchTask(of_task(Field::After))));
    Ok(())
}

/// The set of the text in words.
fn told(alloc: Global, text: &str) -> Result<String, Fail> {
    let set = read_tasks(alloc, text.as_bytes())?;
    described(alloc, &set)
}

/// The numbers and names of a set, in order, with the places in `after` lists.
fn described(alloc: Global, set: &TaskSet) -> Result<String, Fail> {
    let mut text = format!(in alloc; "soft {}", set.soft_limit)?;
    for graph in set.graphs.items() {
        let name = std::str::from_utf8(graph.name.bytes())?;
        write!(
            text,
            " | {name} {} {} {}",
            graph.period, graph.offset, graph.deadline
        )?;
        push_tasks(&mut text, graph.tasks.items())?;
    }
    Ok(text)
}

/// Appends the tasks of a graph.
fn push_tasks(text: &mut String, tasks: &[Task]) -> Result<(), Fail> {
    for task in tasks {
        let name = std::str::from_utf8(task.name.bytes())?;
        write!(text, " : {name} {} {:?}", task.wcet, task.after.items())?;
    }
    Ok(())
}
