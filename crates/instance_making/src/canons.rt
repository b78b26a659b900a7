//! Canonical functions of an instance that is made (Component Model, CanonicalABI.md, `canon lift` and `canon lower`).

ghost use Rattle.std.specs.Prelude.{◌≡◌, List, IfOk, OnOk, option_map, option_and_then, slice_get};
ghost use Rattle.comp_worlds.specs.Groups.{LoweredFunc};
ghost use Rattle.comp_link.specs.Plans.{Lifts};
ghost use Rattle.comp_link.specs.Linking.{Givens as GroupGivens, Making as GroupMaking, lifting_of as lifting_of_group, link_item, memory_in as memory_of_group, realloc_in as realloc_of_group, options_in as options_of_group, post_in as post_of_group};
ghost use Rattle.instance_state.specs.Targets.{lifting_of, func_of};
ghost use Rattle.instance_state.specs.Passed.{options_of};
ghost use Rattle.instance_making.specs.Shown.{Stands};

use crate::call_types::call_type_with;
use crate::core_making::place_at;
use crate::making::Making;
use comp_types::KnownFunc;
use instance_state::{CallOptions, Canon, Lifting, Target};
use std::alloc::Global;
use std::rc::Rc;
use virt_base::NoMemory;
use wasm_ast::CanonOption;

impl Making {
    fn memory_in(&self, options: &[CanonOption]) -> Option<u32>
        ensures { (made : List GroupGivens) (g : GroupMaking) → Stands made self.now g → result ≡ memory_of_group g options.now }
    {
        for option in options {
            if let CanonOption::Memory(index) = option {
                return Some(place_at(&self.core_memories, *index));
            }
        }
        None
    }

    fn realloc_in(&self, options: &[CanonOption]) -> Option<u32>
        ensures { (made : List GroupGivens) (g : GroupMaking) → Stands made self.now g → result ≡ realloc_of_group g options.now }
    {
        for option in options {
            if let CanonOption::Realloc(index) = option {
                return Some(place_at(&self.core_functions, *index));
            }
        }
        None
    }

    fn options_in(&self, options: &[CanonOption]) -> CallOptions
        ensures { (made : List GroupGivens) (g : GroupMaking) → Stands made self.now g → options_of result ≡ options_of_group g options.now }
    {
        CallOptions {
            memory: self.memory_in(options),
            realloc: self.realloc_in(options),
        }
    }

    fn post_in(&self, options: &[CanonOption]) -> Option<u32>
        ensures { (made : List GroupGivens) (g : GroupMaking) → Stands made self.now g → result ≡ post_of_group g options.now }
    {
        for option in options {
            if let CanonOption::PostReturn(index) = option {
                return Some(place_at(&self.core_functions, *index));
            }
        }
        None
    }

    fn lifting(
        &self,
        alloc: Global,
        func: u32,
        options: &[CanonOption],
        ty: &Rc<KnownFunc>,
    ) -> Result<Lifting, NoMemory>
        ensures { IfOk result (λ lifting. (made : List GroupGivens) (g : GroupMaking) → Stands made self.now g → lifting_of lifting ≡ lifting_of_group g func options.now ty.now.value) }
    {
        let ty = call_type_with(alloc, ty, &self.resources)?;
        Ok(Lifting {
            code: self.core_function(func),
            ty,
            options: self.options_in(options),
            post: self.post_in(options),
        })
    }

    /// A function is lifted from a core function (Component Model, Explainer.md, `canon lift`).
    pub fn lift(
        &mut self,
        alloc: Global,
        func: u32,
        options: &[CanonOption],
        ty: &Rc<KnownFunc>,
    ) -> Result<(), NoMemory>
        ensures { OnOk result ((made : List GroupGivens) (g : GroupMaking) → Stands made self.old g → Stands made self.new (link_item (Lifts func options.now ty.now.value) g)) }
    {
        let lifting = Rc::new(alloc, self.lifting(alloc, func, options, ty)?)?;
        let instance = self.instance;
        self.functions.push(Target::Mine { instance, lifting })?;
        Ok(())
    }

    /// The canonical function that a function is lowered to.
    pub fn lowered(&self, func: u32, options: &[CanonOption]) -> Result<Option<Canon>, NoMemory>
        ensures { IfOk result (λ canon. (made : List GroupGivens) (g : GroupMaking) → Stands made self.now g →
            option_map func_of canon ≡ option_map (λ target. LoweredFunc target (options_of_group g options.now)) (option_and_then (λ o. o) (slice_get g.functions func))) }
    {
        match self.functions.get(func as usize) {
            None => Ok(None),
            Some(target) => Ok(Some(Canon::Lowered {
                target: target.share()?,
                options: self.options_in(options),
            })),
        }
    }
}
