// The types of variables, of values, and what bases name.
ghost use Rattle.std.specs.Prelude.{◌≡◌};
ghost use Rattle.mc_c_types.specs.Types.{agree, fits, number_type, is_int, is_pointer, are_comparable, result_fits, allocates, is_declarable};
ghost use Rattle.mc_c_types.specs.Tables.{declared_type, is_undefined};
ghost use Rattle.mc_c_types.specs.Faults.{pointed_meaning};

use mc_base::StructId;
use mc_base::text::Place;

/// The type of a variable, field, parameter or result.
#[derive(Clone, Copy, Debug, PartialEq, Eq)]
pub enum VariableType {
    Int,
    /// A pointer to this struct of the program.
    Pointer(StructId),
    /// What names something unknown or is refused itself. It fits every type, so that one fault causes no other.
    Anything,
}

/// What a value can be: a literal 0 or `NULL` has no type of its own.
#[derive(Clone, Copy, Debug, PartialEq, Eq)]
pub enum ValueType {
    Typed(VariableType),
    Zero,
    Null,
}

/// What a base names.
#[derive(Clone, Copy, Debug, PartialEq, Eq)]
pub enum BaseType {
    Typed(VariableType),
    /// A struct itself.
    Struct(StructId),
    /// A struct that is defined nowhere.
    Undefined,
}

impl VariableType {
    /// Whether two types are one, as far as is known.
    pub fn agrees(self, given: VariableType) -> bool
        ensures { result ≡ agree self given }
    {
        match (self, given) {
            (VariableType::Anything, _) => true,
            (VariableType::Int, VariableType::Int) => true,
            (VariableType::Int, VariableType::Pointer(_)) => false,
            (VariableType::Int, VariableType::Anything) => true,
            (VariableType::Pointer(_), VariableType::Int) => false,
            (VariableType::Pointer(wanted), VariableType::Pointer(given)) => wanted.0 == given.0,
            (VariableType::Pointer(_), VariableType::Anything) => true,
        }
    }

    /// Whether a value fits where this type is wanted.
    pub fn takes(self, value: ValueType) -> bool
        ensures { result ≡ fits self value }
    {
        match value {
            ValueType::Typed(given) => self.agrees(given),
            ValueType::Zero => true,
            ValueType::Null => match self {
                VariableType::Int => false,
                VariableType::Pointer(_) => true,
                VariableType::Anything => true,
            },
        }
    }

    /// Whether a call's result fits where this type is wanted.
    pub fn takes_result(self, given: Option<VariableType>) -> bool
        ensures { result ≡ result_fits self given }
    {
        match given {
            None => false,
            Some(given) => self.agrees(given),
        }
    }

    /// Whether memory for what a base means may be what a pointer of this type points to.
    pub fn takes_memory(self, given: BaseType) -> bool
        ensures { result ≡ allocates self given }
    {
        let pointer = ValueType::Typed(self).is_pointer();
        match given {
            BaseType::Typed(VariableType::Int) => false,
            BaseType::Typed(VariableType::Pointer(_)) => false,
            BaseType::Typed(VariableType::Anything) => pointer,
            BaseType::Struct(s) => pointer && self.agrees(VariableType::Pointer(s)),
            BaseType::Undefined => pointer,
        }
    }

    /// What a pointer points to.
    pub fn pointed(self) -> BaseType
        ensures { result ≡ pointed_meaning self }
    {
        match self {
            VariableType::Int => BaseType::Typed(VariableType::Int),
            VariableType::Pointer(s) => BaseType::Struct(s),
            VariableType::Anything => BaseType::Typed(VariableType::Anything),
        }
    }
}

impl ValueType {
    /// The type of a number.
    pub fn of_number(number: u32) -> ValueType
        ensures { result ≡ number_type number }
    {
        if number == 0 {
            ValueType::Zero
        } else {
            ValueType::Typed(VariableType::Int)
        }
    }

    pub fn is_int(self) -> bool
        ensures { result ≡ is_int self }
    {
        VariableType::Int.takes(self)
    }

    pub fn is_pointer(self) -> bool
        ensures { result ≡ is_pointer self }
    {
        match self {
            ValueType::Typed(VariableType::Int) => false,
            ValueType::Typed(VariableType::Pointer(_)) => true,
            ValueType::Typed(VariableType::Anything) => true,
            ValueType::Zero => true,
            ValueType::Null => true,
        }
    }

    /// Whether `==` can compare two values.
    pub fn is_comparable(self, right: ValueType) -> bool
        ensures { result ≡ are_comparable self right }
    {
        match (self, right) {
            (ValueType::Typed(left), right) => left.takes(right),
            (ValueType::Zero, _) => true,
            (ValueType::Null, ValueType::Typed(right)) => right.takes(ValueType::Null),
            (ValueType::Null, ValueType::Zero) => true,
            (ValueType::Null, ValueType::Null) => true,
        }
    }
}

impl BaseType {
    /// The type of a name that is declared with this base, and perhaps after a `*`.
    pub fn declared(self, star: Option<Place>) -> VariableType
        ensures { result ≡ declared_type self star }
    {
        match (self, star) {
            (BaseType::Typed(given), None) => given,
            (BaseType::Typed(_), Some(_)) => VariableType::Anything,
            (BaseType::Struct(_), None) => VariableType::Anything,
            (BaseType::Struct(s), Some(_)) => VariableType::Pointer(s),
            (BaseType::Undefined, None) => VariableType::Anything,
            (BaseType::Undefined, Some(_)) => VariableType::Anything,
        }
    }

    /// Whether a variable, field, parameter or result can be declared with this base, and perhaps a `*`.
    pub fn is_declarable(self, star: Option<Place>) -> bool
        ensures { result ≡ is_declarable self star }
    {
        match self {
            BaseType::Typed(VariableType::Int) => star.is_none(),
            BaseType::Typed(VariableType::Pointer(_)) => star.is_none(),
            BaseType::Typed(VariableType::Anything) => true,
            BaseType::Struct(_) => star.is_some(),
            BaseType::Undefined => star.is_some(),
        }
    }

    pub fn is_undefined(self) -> bool
        ensures { result ≡ is_undefined self }
    {
        match self {
            BaseType::Typed(_) => false,
            BaseType::Struct(_) => false,
            BaseType::Undefined => true,
        }
    }
}
