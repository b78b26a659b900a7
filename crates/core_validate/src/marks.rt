//! The functions that a body's `ref.func` may name.

ghost use Rattle.std.specs.Prelude.{◌≡◌, slice_set, true};
ghost use Rattle.core_validate.specs.Gather.{gather};
ghost use Rattle.core_validate.specs.Spaces.{marked, functions_in, functions_in_code, exported_functions, element_functions, declared_functions};

use wasm_ast::{ConstExpr, Elements, Export, ExportItem, Global, Instr, Module, Op};

#[tactic(auto, using(std::proofs::lemmas::List::set_past))]
fn mark(marks: &mut [bool], n: u32)
    ensures { marks.new ≡ slice_set marks.old n true }
{
    if (n as usize) < marks.len() {
        marks[n as usize] = true;
    }
}

fn mark_indexes(marks: &mut [bool], ns: &[u32])
    ensures { marks.new ≡ marked ns.now marks.old }
{
    for n in ns {
        mark(marks, *n);
    }
}

fn mark_instr(marks: &mut [bool], instr: &Instr)
    ensures { marks.new ≡ marked (functions_in instr.now) marks.old }
{
    match instr {
        Instr::Plain(Op::RefFunc(n)) => mark(marks, *n),
        _ => {}
    }
}

fn mark_code(marks: &mut [bool], code: &[Instr])
    ensures { marks.new ≡ marked (functions_in_code code.now) marks.old }
{
    for instr in code {
        mark_instr(marks, instr);
    }
}

fn mark_exprs(marks: &mut [bool], exprs: &[ConstExpr])
    ensures { marks.new ≡ marked (gather functions_in_code exprs.now) marks.old }
{
    for expr in exprs {
        let code = expr.code();
        mark_code(marks, code.as_slice());
    }
}

fn mark_segment(marks: &mut [bool], elements: &Elements)
    ensures { marks.new ≡ marked (element_functions elements.now) marks.old }
{
    match elements {
        Elements::ActiveFuncs { funcs, .. }
        | Elements::PassiveFuncs { funcs }
        | Elements::ActiveFuncsAt { funcs, .. }
        | Elements::DeclaredFuncs { funcs } => mark_indexes(marks, funcs.as_slice()),
        Elements::ActiveExprs { exprs, .. }
        | Elements::PassiveExprs { exprs, .. }
        | Elements::ActiveExprsAt { exprs, .. }
        | Elements::DeclaredExprs { exprs, .. } => mark_exprs(marks, exprs.as_slice()),
    }
}

fn mark_export(marks: &mut [bool], item: ExportItem)
    ensures { marks.new ≡ marked (exported_functions item) marks.old }
{
    match item {
        ExportItem::Func(n) => mark(marks, n),
        ExportItem::Table(_) | ExportItem::Memory(_) | ExportItem::Global(_) => {}
    }
}

fn mark_exports(marks: &mut [bool], exports: &[Export])
    ensures { marks.new ≡ marked (gather (λ e. exported_functions e.item) exports.now) marks.old }
{
    for export in exports {
        mark_export(marks, export.item);
    }
}

fn mark_segments(marks: &mut [bool], segments: &[Elements])
    ensures { marks.new ≡ marked (gather element_functions segments.now) marks.old }
{
    for elements in segments {
        mark_segment(marks, elements);
    }
}

fn mark_globals(marks: &mut [bool], globals: &[Global])
    ensures { marks.new ≡ marked (gather (λ g. functions_in_code g.init) globals.now) marks.old }
{
    for global in globals {
        let code = global.init.code();
        mark_code(marks, code.as_slice());
    }
}

/// Marks the functions in the module's exports, element segments and globals.
pub fn mark_declared(marks: &mut [bool], core: &Module)
    ensures { marks.new ≡ marked (declared_functions core.now) marks.old }
{
    mark_exports(marks, core.exports.as_slice());
    mark_segments(marks, core.elements.as_slice());
    mark_globals(marks, core.globals.as_slice());
}
