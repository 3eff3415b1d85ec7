ghost use Rattle.std.specs.Prelude.{◌≡◌};
ghost use Rattle.eif_base.specs.Codes.{code_text};

/// What is broken. Codes that begin with V are labels after the validity constraints of the public
/// standard, and those that begin with X are this project's own. The variants stand in the order of
/// their texts.
#[derive(Clone, Copy, Debug, PartialEq, Eq)]
pub enum Code {
    /// An assignment to what is not writable, or from a type that does not conform.
    Vbar,
    /// A class with a deferred feature is not marked deferred.
    Vcch,
    /// A formal generic has a taken name or a bad constraint.
    Vcfg,
    /// Inherited deferred features of unequal signatures are joined.
    Vdjr,
    /// A precursor that is not the one version.
    Vdpr,
    /// A redeclaration that does not keep the signature.
    Vdrd,
    /// A redefinition that redefines nothing.
    Vdrs,
    /// An undefinition of what cannot be undefined.
    Vdus,
    /// A name that means nothing here.
    Veen,
    /// A variable that may be read before it is set.
    Vevi,
    /// A constant that is not of its literal's class.
    Vffd,
    /// A creation expression that cannot create.
    Vgce,
    /// A creation instruction that cannot create.
    Vgci,
    /// A creation procedure that is none.
    Vgcp,
    /// A class inherits from itself.
    Vhpr,
    /// A rename of no inherited name, or of one renamed before.
    Vhrc,
    /// An export of no inherited name, or of one exported before.
    Vlel,
    /// Two features of one name.
    Vmfn,
    /// Several versions of a feature and no selected one.
    Vmrc,
    /// A selection of what needs none.
    Vmss,
    /// An argument or local with a taken name.
    Vrfa,
    /// The root procedure is no creator of the root class.
    Vsrp,
    /// The root class is not there, or cannot be the root.
    Vsrt,
    /// A type of no class.
    Vtct,
    /// Arguments that do not fit.
    Vuar,
    /// A feature that is not there for this client.
    Vuex,
    /// An object test with a taken local name.
    Vuot,
    /// A call on a target that may be Void.
    Vuta,
    /// A condition that is no boolean.
    Vwbe,
    /// An ancestor has different actuals by two paths.
    Xanc,
    /// A class name is taken.
    Xdup,
    /// A wrong number of actuals, or an actual outside its constraint.
    Xgen,
    /// A kernel class other than ANY is inherited.
    Xker,
    /// No token starts.
    Xlex,
    /// A limit of the profile is passed.
    Xlim,
    /// A line of the list file is not UTF-8.
    Xlst,
    /// A basic type is marked detachable.
    Xmrk,
    /// Operands of the wrong types.
    Xopr,
    /// A token that the profile leaves out.
    Xout,
    /// A replicated routine uses a replicated feature.
    Xrep,
    /// The tokens are no class text.
    Xsyn,
    /// A call is used as an instruction or expression that it is not.
    Xuse,
    /// A class that this version does not judge yet.
    Xyet,
}

impl Code {
    /// The code as reports write it.
    pub fn text(self) -> &'static [u8]
        ensures { result.now ≡ code_text self }
    {
        match self {
            Code::Vbar => b"VBAR",
            Code::Vcch => b"VCCH",
            Code::Vcfg => b"VCFG",
            Code::Vdjr => b"VDJR",
            Code::Vdpr => b"VDPR",
            Code::Vdrd => b"VDRD",
            Code::Vdrs => b"VDRS",
            Code::Vdus => b"VDUS",
            Code::Veen => b"VEEN",
            Code::Vevi => b"VEVI",
            Code::Vffd => b"VFFD",
            Code::Vgce => b"VGCE",
            Code::Vgci => b"VGCI",
            Code::Vgcp => b"VGCP",
            Code::Vhpr => b"VHPR",
            Code::Vhrc => b"VHRC",
            Code::Vlel => b"VLEL",
            Code::Vmfn => b"VMFN",
            Code::Vmrc => b"VMRC",
            Code::Vmss => b"VMSS",
            Code::Vrfa => b"VRFA",
            Code::Vsrp => b"VSRP",
            Code::Vsrt => b"VSRT",
            Code::Vtct => b"VTCT",
            Code::Vuar => b"VUAR",
            Code::Vuex => b"VUEX",
            Code::Vuot => b"VUOT",
            Code::Vuta => b"VUTA",
            Code::Vwbe => b"VWBE",
            Code::Xanc => b"XANC",
            Code::Xdup => b"XDUP",
            Code::Xgen => b"XGEN",
            Code::Xker => b"XKER",
            Code::Xlex => b"XLEX",
            Code::Xlim => b"XLIM",
            Code::Xlst => b"XLST",
            Code::Xmrk => b"XMRK",
            Code::Xopr => b"XOPR",
            Code::Xout => b"XOUT",
            Code::Xrep => b"XREP",
            Code::Xsyn => b"XSYN",
            Code::Xuse => b"XUSE",
            Code::Xyet => b"XYET",
        }
    }
}
