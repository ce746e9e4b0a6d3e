use c_token::Bytes;

/// What a set numbers: the module, and the place in it. Functions, methods included, and classes are numbered each in
/// text order. `0_1` in a name.
#[derive(Clone, Copy, Debug, PartialEq, Eq)]
pub struct Numbered {
    pub module: u32,
    pub index: u32,
}

/// A field of a class, which has a getter and a setter. `0_1_2` in a name.
#[derive(Clone, Copy, Debug, PartialEq, Eq)]
pub struct FieldNumber {
    pub class: Numbered,
    pub field: u32,
}

/// A parameter of a head that is fixed (Python/C API manual, "Common Object Structures", "Type Objects").
#[derive(Clone, Copy, Debug, PartialEq, Eq)]
pub enum FixedParameter {
    /// `self`
    SelfObject,
    /// `args`
    Arguments,
    /// `nargs`
    ArgumentCount,
    /// `type`
    Type,
    /// `kwds`
    Keywords,
    /// `k`
    Key,
    /// `value`
    Value,
    /// `closure`
    Closure,
}

/// A place of a file: `cyc_m`, `cyc_d`, `cyc_b`, `cyc_r`, `cyc_c_0`, `cyc_g_0`.
#[derive(Clone, Copy, Debug, PartialEq, Eq)]
pub enum Place {
    Module,
    Dictionary,
    Builtins,
    Ready,
    Constant(u32),
    Global(u32),
}

/// A variable: `p0`, `v0`, `t0`, `r`, a parameter of a fixed head, a place of the file.
#[derive(Clone, Copy, Debug, PartialEq, Eq)]
pub enum Variable {
    Parameter(u32),
    Local(u32),
    Temporary(u32),
    Returned,
    Fixed(FixedParameter),
    Place(Place),
}

/// A function that the compiler names.
#[derive(Drop)]
pub enum FunctionName {
    /// `cyc_f_0_1`: a C function
    Plain(Numbered),
    /// `cyc_w_0_1`: the wrapper of a function that Python calls
    Wrapper(Numbered),
    /// `cyc_x_0_1`: a method that looks for an override first
    Overridable(Numbered),
    /// `cyc_new_0_1`
    New(Numbered),
    /// `cyc_init_0_1`
    Init(Numbered),
    /// `cyc_dealloc_0_1`
    Dealloc(Numbered),
    /// `cyc_len_0_1`
    Len(Numbered),
    /// `cyc_item_0_1`
    Item(Numbered),
    /// `cyc_has_0_1`
    Has(Numbered),
    /// `cyc_get_0_1_2`
    Getter(FieldNumber),
    /// `cyc_set_0_1_2`
    Setter(FieldNumber),
    /// `cyc_body`: what a module does when it is imported
    Body,
    /// `PyInit_name`
    Initializer(Bytes),
}

/// A table of methods: that of the file, `cyc_md`, or of a class, `cyc_ms_0_1`.
#[derive(Clone, Copy, Debug, PartialEq, Eq)]
pub enum TableName {
    OfFile,
    OfClass(Numbered),
}
