// The tasks of a run.
ghost use Rattle.std.specs.Prelude.{◌≡◌, [], None, IfSome, OnOk};
ghost use Rattle.tree_meaning.specs.Tasks.{behind, row_fits, task_does, task_fits};

use crate::task::Task;
use std::alloc::{AllocError, Global};
use std::marker::Model;

/// What is still to be done: the last task is the next.
#[derive(Drop)]
pub(crate) struct Agenda<'a> {
    tasks: Vec<Task<'a>>,
}

impl<'a> Model for Agenda<'a> {
    ghost use Rattle.std.specs.Prelude.{List};
    ghost use Rattle.std.specs.Coded.{codes};
    ghost use Rattle.tree_meaning.specs.Tasks.{row_fits};
    ghost use Rattle.tree_meaning.specs.declared.task.Task.{Task};
    ghost use Rattle.c_typed_trees.specs.contracts.expression.TypedCall as c;
    ghost use Rattle.c_typed_trees.specs.contracts.expression.TypedExprForm as e;
    ghost use Rattle.c_typed_trees.specs.contracts.expression.TypedPlace as p;
    ghost use Rattle.c_typed_trees.specs.contracts.statement.TypedForm as f;
    ghost use Rattle.c_typed_trees.specs.contracts.statement.TypedGroup as g;

    ghost Value = { List Task };

    ghost coded = { Prim.hlevel (codes, c.the_row.coded, e.the_row.coded, p.the_row.coded, f.the_row.coded, g.the_row.coded) };

    ghost view = { λ a. a.tasks.items };

    ghost invariant = { λ a. row_fits a.tasks.items };
}

impl<'a> Agenda<'a> {
    #[tactic(auto, using(crate::proofs::Rows::row_laws))]
    pub(crate) fn new(alloc: Global) -> Agenda<'a>
        ensures { result ≡ [] }
    {
        Agenda {
            tasks: Vec::new(alloc),
        }
    }

    /// A task is the next.
    #[tactic(auto, using(crate::proofs::Rows::row_laws))]
    pub(crate) fn push(&mut self, task: Task<'a>) -> Result<(), AllocError>
        requires { task_fits task }
        ensures { OnOk result (behind self.new ≡ task_does task.entry (behind self.old)) }
    {
        self.tasks.push(task)?;
        Ok(())
    }

    /// The next task.
    #[tactic(auto, using(crate::proofs::Rows::row_laws))]
    pub(crate) fn pop(&mut self) -> Option<Task<'a>>
        ensures fits { IfSome result task_fits }
        ensures next { IfSome result (λ task. behind self.old ≡ task_does task (behind self.new)) }
        ensures none { result ≡ None → self.old ≡ [] }
    {
        self.tasks.pop()
    }
}
