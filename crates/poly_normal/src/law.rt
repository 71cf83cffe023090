ghost use Rattle.poly_normal.specs.Mark.{EqualFormsHaveEqualValues};

/// Nothing is done. The clause is the law that makes equal forms worth having: where the cross
/// products of two expressions are equal polynomials, the expressions have equal values wherever
/// both have one.
pub fn equal_forms_have_equal_values()
    ensures { EqualFormsHaveEqualValues }
{}
