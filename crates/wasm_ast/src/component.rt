//! The tree of a component: its sections, and the items in them (Component Model, Binary.md).

use crate::apart::Apart;
use crate::boxed::Boxed;
use crate::kept_type::KeptType;
use crate::maybe_type::MaybeType;
use crate::module::Module;
use virt_base::{Items, Text};

/// A part of the input: the bytes from one offset up to another.
#[derive(Debug, Clone, Copy, PartialEq, Eq)]
pub struct Span {
    pub from: u64,
    pub to: u64,
}

/// What a core export is.
#[derive(Debug, Clone, Copy, PartialEq, Eq)]
pub enum CoreSort {
    Func,
    Table,
    Memory,
    Global,
}

/// A core instance that meets a module's imports of a name.
#[derive(Debug, Drop)]
pub struct CoreArg {
    pub name: Text,
    pub instance: u32,
}

/// A named item of an inline core instance.
#[derive(Debug, Drop)]
pub struct CoreExport {
    pub name: Text,
    pub sort: CoreSort,
    pub index: u32,
}

/// A core instance (Component Model, Binary.md, "Instance Definitions").
#[derive(Debug, Drop)]
pub enum CoreInstance {
    Instantiate { module: u32, args: Items<CoreArg> },
    Inline { exports: Items<CoreExport> },
}

/// What an argument or an export is.
#[derive(Debug, Clone, Copy, PartialEq, Eq)]
pub enum Sort {
    Func,
    Type,
    Instance,
}

/// A named item: an argument of an instantiation, or an export of an inline instance.
#[derive(Debug, Drop)]
pub struct NamedItem {
    pub name: Text,
    pub sort: Sort,
    pub index: u32,
}

/// An instance.
#[derive(Debug, Drop)]
pub enum Instance {
    Instantiate {
        component: u32,
        args: Items<NamedItem>,
    },
    Inline {
        exports: Items<NamedItem>,
    },
}

/// What an outer alias may name.
#[derive(Debug, Clone, Copy, PartialEq, Eq)]
pub enum OuterSort {
    CoreModule,
    Type,
    Component,
}

/// An alias (Component Model, Binary.md, "Alias Definitions").
#[derive(Debug, Drop)]
pub enum Alias {
    /// An export of an instance.
    Export {
        sort: Sort,
        instance: u32,
        name: Text,
    },
    /// An export of a core instance.
    CoreExport {
        sort: CoreSort,
        instance: u32,
        name: Text,
    },
    /// An item of the scope that many scopes further out.
    Outer {
        sort: OuterSort,
        count: u32,
        index: u32,
    },
}

/// A type without parts.
#[derive(Debug, Clone, Copy, PartialEq, Eq)]
pub enum Primitive {
    Bool,
    S8,
    U8,
    S16,
    U16,
    S32,
    U32,
    S64,
    U64,
    Char,
    String,
}

/// A value type where one is used: a primitive, or the type at an index.
#[derive(Debug, Clone, Copy, PartialEq, Eq)]
pub enum ValType {
    Primitive(Primitive),
    Index(u32),
}

/// A field or a parameter.
#[derive(Debug, Drop)]
pub struct LabelType {
    pub label: Text,
    pub ty: ValType,
}

/// A case of a variant.
#[derive(Debug, Drop)]
pub struct CaseType {
    pub label: Text,
    pub ty: Option<ValType>,
}

/// Labels in order.
pub type Labels = Items<Text>;

/// A type's definition (Component Model, Binary.md, "Type Definitions").
#[derive(Debug, Drop)]
pub enum TypeDef {
    Primitive(Primitive),
    Record {
        fields: Items<LabelType>,
    },
    Variant {
        cases: Items<CaseType>,
    },
    List(ValType),
    Tuple {
        types: Items<ValType>,
    },
    Flags {
        labels: Labels,
    },
    Enum {
        labels: Labels,
    },
    Option(ValType),
    Result {
        ok: MaybeType,
        err: MaybeType,
    },
    Own(u32),
    Borrow(u32),
    Func {
        params: Items<LabelType>,
        result: MaybeType,
    },
    /// An instance type, of which that many declarations follow in the list.
    Instance {
        declarations: u32,
    },
    Resource {
        destructor: Option<u32>,
    },
}

/// What an import, or an export that states its type, is.
#[derive(Debug, Clone, Copy, PartialEq, Eq)]
pub enum ExternDesc {
    Func(u32),
    TypeEq(u32),
    Resource,
    Instance(u32),
}

/// What an alias in an instance type names.
#[derive(Debug, Drop)]
pub enum TypeAlias {
    Export { instance: u32, name: Apart<Text> },
    Outer { count: u32, index: u32 },
}

/// An item of a section of types. The list is flat: the declarations of an instance type follow it, in which
/// instance types may stand again, at any depth.
#[derive(Debug, Drop)]
pub enum TypeItem {
    /// A definition: of the section, or declared in the innermost instance type that is not whole.
    Define(KeptType),
    /// An alias that an instance type declares.
    Alias(TypeAlias),
    /// An export that an instance type declares.
    Export { name: Apart<Text>, desc: ExternDesc },
}

/// An option of a canonical function.
#[derive(Debug, Clone, Copy, PartialEq, Eq)]
pub enum CanonOption {
    Utf8,
    Memory(u32),
    Realloc(u32),
    PostReturn(u32),
}

/// A canonical function (Component Model, Binary.md, "Canonical Definitions").
#[derive(Debug, Drop)]
pub enum Canon {
    Lift {
        func: u32,
        options: Items<CanonOption>,
        ty: u32,
    },
    Lower {
        func: u32,
        options: Items<CanonOption>,
    },
    ResourceNew(u32),
    ResourceDrop(u32),
    ResourceRep(u32),
}

/// An import of a component.
#[derive(Debug, Drop)]
pub struct ComponentImport {
    pub name: Text,
    pub desc: ExternDesc,
}

/// An export of a component, with the type that it states, if it states one.
#[derive(Debug, Drop)]
pub struct ComponentExport {
    pub name: Text,
    pub sort: Sort,
    pub index: u32,
    pub desc: Option<ExternDesc>,
}

/// A section of a component. A nested module or component stands with the part of the input that spells it.
#[cycle(component)]
#[derive(Debug, Drop)]
pub enum Section {
    CoreModule(Span, Boxed<Module>),
    Nested(Span, Component),
    CoreInstances(Items<CoreInstance>),
    Instances(Items<Instance>),
    Aliases(Items<Alias>),
    Types(Items<TypeItem>),
    Canons(Items<Canon>),
    Imports(Items<ComponentImport>),
    Exports(Items<ComponentExport>),
    /// A custom section: the part after its size.
    Custom(Span),
}

/// A component: its sections, in the order in which they stand.
#[cycle(component)]
#[derive(Debug, Drop)]
pub struct Component {
    pub sections: Vec<Section>,
}
