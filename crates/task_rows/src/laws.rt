//! Laws on the marks of a picture.

ghost use Rattle.task_rows.specs.Laws.{EachInstanceIsMarked};

/// No instance that touches the slots of a picture is left unmarked.
pub fn each_instance_is_marked()
    ensures { EachInstanceIsMarked }
{}
