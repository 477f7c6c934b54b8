// What an instruction throws where more than one of its tests fails, and where a value is of the wrong kind: bodies of `main`, each with the class of what
// it throws, or with none.
use crate::set_rows::{Program, run};
use mvm_history::Limits;
use std::alloc::{AllocError, Global};
use std::test::Fail;

// The class behind which `main` stands.
const BEGINNING: &str = "\
class 33 Main java/lang/Object
field 9 count I
field 1 own I
field 25 fixed I
field 17 kept I
method 9 still ()V
  code 0 0
    return
  end
method 9 takes (I)V
  code 0 1
    return
  end
method 1 moving ()V
  code 0 1
    return
  end
method 1 given (I)V
  code 0 2
    return
  end
method 257 outside ()V
method 265 outsides (I)V
method 9 wide ()J
  code 2 0
    lconst_0
    lreturn
  end
method 9 wrong (I)I
  code 2 1
    iload_0
    tableswitch 0 none long null default int
  none:
    return
  long:
    lconst_0
    lreturn
  null:
    aconst_null
    areturn
  int:
    iconst_0
    ireturn
  end
method 9 main ([Ljava/lang/String;)V
  code 8 8
";

const END: &str = "\nreturn\nend\n";

// Instructions on arrays (JVM Specification 6.5 under iaload, iastore, aastore and so on): null before the index, the index before the kind of the
// array, and the store check last.
const ARRAYS: [(&str, &str); 38] = [
    (
        "aconst_null\niconst_m1\niaload",
        "java/lang/NullPointerException",
    ),
    (
        "iconst_1\nnewarray 10\niconst_m1\niaload",
        "java/lang/ArrayIndexOutOfBoundsException",
    ),
    (
        "iconst_1\nnewarray 10\niconst_1\niaload",
        "java/lang/ArrayIndexOutOfBoundsException",
    ),
    ("iconst_1\nnewarray 10\niconst_0\niaload", ""),
    (
        "iconst_1\nnewarray 5\niconst_1\niaload",
        "java/lang/ArrayIndexOutOfBoundsException",
    ),
    (
        "iconst_1\nnewarray 5\niconst_0\niaload",
        "java/lang/VerifyError",
    ),
    (
        "iconst_1\nnewarray 5\niconst_0\nsaload",
        "java/lang/VerifyError",
    ),
    ("iconst_1\nnewarray 4\niconst_0\nbaload", ""),
    ("iconst_1\nnewarray 8\niconst_0\nbaload", ""),
    (
        "iconst_1\nnewarray 5\niconst_0\nbaload",
        "java/lang/VerifyError",
    ),
    (
        "iconst_1\nnewarray 10\niconst_0\naaload",
        "java/lang/VerifyError",
    ),
    (
        "iconst_1\nanewarray java/lang/String\niconst_0\niaload",
        "java/lang/VerifyError",
    ),
    (
        "iconst_1\nanewarray java/lang/String\niconst_1\naaload",
        "java/lang/ArrayIndexOutOfBoundsException",
    ),
    (
        "new java/lang/Object\niconst_m1\niaload",
        "java/lang/VerifyError",
    ),
    ("aconst_null\nlconst_0\niaload", "java/lang/VerifyError"),
    ("iconst_0\niconst_0\niaload", "java/lang/VerifyError"),
    (
        "aconst_null\niconst_m1\niconst_0\niastore",
        "java/lang/NullPointerException",
    ),
    (
        "aconst_null\niconst_m1\naconst_null\naastore",
        "java/lang/NullPointerException",
    ),
    (
        "aconst_null\niconst_m1\nlconst_0\niastore",
        "java/lang/VerifyError",
    ),
    (
        "iconst_1\nnewarray 10\niconst_1\niconst_0\niastore",
        "java/lang/ArrayIndexOutOfBoundsException",
    ),
    ("iconst_1\nnewarray 10\niconst_0\niconst_0\niastore", ""),
    (
        "iconst_1\nnewarray 10\niconst_0\nlconst_0\niastore",
        "java/lang/VerifyError",
    ),
    (
        "iconst_1\nnewarray 10\niconst_1\niconst_0\ncastore",
        "java/lang/ArrayIndexOutOfBoundsException",
    ),
    (
        "iconst_1\nnewarray 10\niconst_0\niconst_0\ncastore",
        "java/lang/VerifyError",
    ),
    (
        "iconst_1\nnewarray 10\niconst_0\nlconst_0\nlastore",
        "java/lang/VerifyError",
    ),
    (
        "iconst_1\nanewarray java/lang/String\niconst_1\nnew java/lang/Object\naastore",
        "java/lang/ArrayIndexOutOfBoundsException",
    ),
    (
        "iconst_1\nanewarray java/lang/String\niconst_m1\nnew java/lang/Object\naastore",
        "java/lang/ArrayIndexOutOfBoundsException",
    ),
    (
        "iconst_1\nanewarray java/lang/String\niconst_0\nnew java/lang/Object\naastore",
        "java/lang/ArrayStoreException",
    ),
    (
        "iconst_1\nanewarray java/lang/String\niconst_0\nldc \"a\"\naastore",
        "",
    ),
    (
        "iconst_1\nanewarray java/lang/String\niconst_0\naconst_null\naastore",
        "",
    ),
    (
        "iconst_1\nanewarray java/lang/String\niconst_0\niconst_0\naastore",
        "java/lang/VerifyError",
    ),
    (
        "iconst_1\nnewarray 10\niconst_1\nnew java/lang/Object\naastore",
        "java/lang/ArrayIndexOutOfBoundsException",
    ),
    (
        "iconst_1\nnewarray 10\niconst_0\nnew java/lang/Object\naastore",
        "java/lang/VerifyError",
    ),
    (
        "iconst_1\nanewarray [I\niconst_0\niconst_1\nnewarray 5\naastore",
        "java/lang/ArrayStoreException",
    ),
    (
        "iconst_1\nanewarray java/lang/Runnable\niconst_0\nnew java/lang/Object\naastore",
        "java/lang/ArrayStoreException",
    ),
    ("aconst_null\narraylength", "java/lang/NullPointerException"),
    ("new java/lang/Object\narraylength", "java/lang/VerifyError"),
    ("iconst_0\narraylength", "java/lang/VerifyError"),
];

// The sizes of new arrays (6.5 under newarray, anewarray, multianewarray): the class is resolved first, then all sizes are tested.
const SIZES: [(&str, &str); 18] = [
    (
        "iconst_m1\nnewarray 10",
        "java/lang/NegativeArraySizeException",
    ),
    ("lconst_1\nnewarray 10", "java/lang/VerifyError"),
    ("iconst_0\nnewarray 10", ""),
    (
        "iconst_m1\nanewarray java/lang/String",
        "java/lang/NegativeArraySizeException",
    ),
    (
        "iconst_m1\nanewarray Gone",
        "java/lang/NoClassDefFoundError",
    ),
    ("iconst_1\nanewarray Gone", "java/lang/NoClassDefFoundError"),
    ("lconst_1\nanewarray Gone", "java/lang/NoClassDefFoundError"),
    ("anewarray Gone", "java/lang/NoClassDefFoundError"),
    (
        "iconst_1\nanewarray [LGone;",
        "java/lang/NoClassDefFoundError",
    ),
    (
        "iconst_1\niconst_m1\nmultianewarray [[I 2",
        "java/lang/NegativeArraySizeException",
    ),
    (
        "iconst_m1\niconst_1\nmultianewarray [[I 2",
        "java/lang/NegativeArraySizeException",
    ),
    (
        "iconst_0\niconst_m1\nmultianewarray [[I 2",
        "java/lang/NegativeArraySizeException",
    ),
    (
        "iconst_m1\niconst_1\nmultianewarray [[LGone; 2",
        "java/lang/NoClassDefFoundError",
    ),
    (
        "iconst_m1\nlconst_1\nmultianewarray [[I 2",
        "java/lang/VerifyError",
    ),
    ("iconst_0\niconst_0\nmultianewarray [[I 2", ""),
    ("ldc Gone", "java/lang/NoClassDefFoundError"),
    ("new Gone", "java/lang/NoClassDefFoundError"),
    ("new java/lang/Runnable", "java/lang/InstantiationError"),
];

// checkcast and instanceof (6.5): null passes, and its class is not resolved.
const CASTS: [(&str, &str); 12] = [
    ("aconst_null\ncheckcast Gone", ""),
    ("aconst_null\ninstanceof Gone", ""),
    (
        "new java/lang/Object\ncheckcast Gone",
        "java/lang/NoClassDefFoundError",
    ),
    (
        "new java/lang/Object\ninstanceof Gone",
        "java/lang/NoClassDefFoundError",
    ),
    (
        "new java/lang/Object\ncheckcast java/lang/String",
        "java/lang/ClassCastException",
    ),
    ("new java/lang/Object\ninstanceof java/lang/String", ""),
    (
        "iconst_1\nnewarray 10\ncheckcast [J",
        "java/lang/ClassCastException",
    ),
    ("iconst_1\nnewarray 10\ncheckcast java/lang/Object", ""),
    (
        "iconst_1\nnewarray 10\ncheckcast java/lang/Runnable",
        "java/lang/ClassCastException",
    ),
    (
        "iconst_1\nanewarray java/lang/String\ncheckcast [Ljava/lang/Object;",
        "",
    ),
    (
        "iconst_0\ncheckcast java/lang/String",
        "java/lang/VerifyError",
    ),
    (
        "iconst_0\ninstanceof java/lang/String",
        "java/lang/VerifyError",
    ),
];

// Instructions on fields (6.5 under getfield, putfield, getstatic, putstatic): the field is resolved, then it is tested whether it is static, then whether it
// is final, and then come the object and the value.
const FIELDS: [(&str, &str); 33] = [
    (
        "aconst_null\ngetfield Main.none:I",
        "java/lang/NoSuchFieldError",
    ),
    (
        "aconst_null\ngetfield Main.own:J",
        "java/lang/NoSuchFieldError",
    ),
    (
        "aconst_null\ngetfield Gone.own:I",
        "java/lang/NoClassDefFoundError",
    ),
    (
        "aconst_null\ngetfield Main.count:I",
        "java/lang/IncompatibleClassChangeError",
    ),
    (
        "aconst_null\ngetfield Main.own:I",
        "java/lang/NullPointerException",
    ),
    (
        "new java/lang/Object\ngetfield Main.own:I",
        "java/lang/VerifyError",
    ),
    ("iconst_0\ngetfield Main.own:I", "java/lang/VerifyError"),
    ("getfield Main.none:I", "java/lang/NoSuchFieldError"),
    (
        "getfield Main.count:I",
        "java/lang/IncompatibleClassChangeError",
    ),
    ("getfield Main.own:I", "java/lang/VerifyError"),
    ("new Main\ngetfield Main.own:I", ""),
    (
        "aconst_null\niconst_0\nputfield Main.none:I",
        "java/lang/NoSuchFieldError",
    ),
    (
        "aconst_null\niconst_0\nputfield Main.count:I",
        "java/lang/IncompatibleClassChangeError",
    ),
    (
        "aconst_null\niconst_0\nputfield Main.fixed:I",
        "java/lang/IncompatibleClassChangeError",
    ),
    (
        "aconst_null\niconst_0\nputfield Main.kept:I",
        "java/lang/IllegalAccessError",
    ),
    (
        "new Main\niconst_0\nputfield Main.kept:I",
        "java/lang/IllegalAccessError",
    ),
    ("putfield Main.kept:I", "java/lang/IllegalAccessError"),
    (
        "aconst_null\niconst_0\nputfield Main.own:I",
        "java/lang/NullPointerException",
    ),
    (
        "aconst_null\nlconst_0\nputfield Main.own:I",
        "java/lang/VerifyError",
    ),
    (
        "new java/lang/Object\niconst_0\nputfield Main.own:I",
        "java/lang/VerifyError",
    ),
    ("new Main\niconst_0\nputfield Main.own:I", ""),
    (
        "getstatic Main.own:I",
        "java/lang/IncompatibleClassChangeError",
    ),
    ("getstatic Main.none:I", "java/lang/NoSuchFieldError"),
    (
        "getstatic Main.kept:I",
        "java/lang/IncompatibleClassChangeError",
    ),
    (
        "iconst_0\nputstatic Main.own:I",
        "java/lang/IncompatibleClassChangeError",
    ),
    (
        "iconst_0\nputstatic Main.kept:I",
        "java/lang/IncompatibleClassChangeError",
    ),
    (
        "iconst_0\nputstatic Main.fixed:I",
        "java/lang/IllegalAccessError",
    ),
    ("putstatic Main.fixed:I", "java/lang/IllegalAccessError"),
    ("putstatic Main.count:I", "java/lang/VerifyError"),
    ("lconst_0\nputstatic Main.count:I", "java/lang/VerifyError"),
    (
        "aconst_null\nputstatic Main.count:I",
        "java/lang/VerifyError",
    ),
    ("iconst_0\nputstatic Main.count:I", ""),
    (
        "getstatic java/lang/System.none:I",
        "java/lang/NoSuchFieldError",
    ),
];

// Calls (6.5 under invokevirtual and so on): the method is resolved, then it is tested whether it is static, then the arguments are taken, then comes the
// object, and then whether the method has code.
const CALLS: [(&str, &str); 37] = [
    (
        "aconst_null\ninvokevirtual Main.none:()V",
        "java/lang/NoSuchMethodError",
    ),
    (
        "aconst_null\ninvokevirtual Gone.none:()V",
        "java/lang/NoClassDefFoundError",
    ),
    (
        "aconst_null\ninvokevirtual Main.still:()V",
        "java/lang/IncompatibleClassChangeError",
    ),
    (
        "invokevirtual Main.still:()V",
        "java/lang/IncompatibleClassChangeError",
    ),
    (
        "aconst_null\ninvokevirtual Main.moving:()V",
        "java/lang/NullPointerException",
    ),
    ("invokevirtual Main.moving:()V", "java/lang/VerifyError"),
    (
        "new java/lang/Object\ninvokevirtual Main.moving:()V",
        "java/lang/VerifyError",
    ),
    (
        "iconst_0\ninvokevirtual Main.moving:()V",
        "java/lang/VerifyError",
    ),
    ("new Main\ninvokevirtual Main.moving:()V", ""),
    (
        "aconst_null\ninvokevirtual java/lang/Runnable.run:()V",
        "java/lang/IncompatibleClassChangeError",
    ),
    (
        "aconst_null\nlconst_0\ninvokevirtual Main.given:(I)V",
        "java/lang/VerifyError",
    ),
    (
        "aconst_null\niconst_0\ninvokevirtual Main.given:(I)V",
        "java/lang/NullPointerException",
    ),
    ("new Main\niconst_0\ninvokevirtual Main.given:(I)V", ""),
    (
        "aconst_null\ninvokevirtual Main.outside:()V",
        "java/lang/NullPointerException",
    ),
    (
        "new Main\ninvokevirtual Main.outside:()V",
        "java/lang/UnsatisfiedLinkError",
    ),
    ("invokestatic Main.outsides:(I)V", "java/lang/VerifyError"),
    (
        "iconst_0\ninvokestatic Main.outsides:(I)V",
        "java/lang/UnsatisfiedLinkError",
    ),
    (
        "invokestatic Main.moving:()V",
        "java/lang/IncompatibleClassChangeError",
    ),
    ("invokestatic Main.none:()V", "java/lang/NoSuchMethodError"),
    (
        "lconst_0\ninvokestatic Main.takes:(I)V",
        "java/lang/VerifyError",
    ),
    ("iconst_0\ninvokestatic Main.takes:(I)V", ""),
    (
        "invokestatic Gone.none:()V",
        "java/lang/NoClassDefFoundError",
    ),
    (
        "invokestatic java/lang/Runnable.run:()V",
        "java/lang/IncompatibleClassChangeError",
    ),
    (
        "aconst_null\ninvokespecial java/lang/Object.<init>:()V",
        "java/lang/NullPointerException",
    ),
    (
        "new java/lang/Object\ninvokespecial java/lang/Object.<init>:()V",
        "",
    ),
    (
        "new Main\ninvokespecial Main.<init>:()V",
        "java/lang/NoSuchMethodError",
    ),
    (
        "aconst_null\ninvokespecial Main.<init>:()V",
        "java/lang/NoSuchMethodError",
    ),
    (
        "aconst_null\ninvokespecial Main.still:()V",
        "java/lang/IncompatibleClassChangeError",
    ),
    (
        "aconst_null\ninvokespecial Main.moving:()V",
        "java/lang/NullPointerException",
    ),
    (
        "new java/lang/Object\ninvokespecial Main.moving:()V",
        "java/lang/VerifyError",
    ),
    (
        "aconst_null\ninvokeinterface java/lang/Runnable.run:()V 1",
        "java/lang/NullPointerException",
    ),
    (
        "new java/lang/Object\ninvokeinterface java/lang/Runnable.run:()V 1",
        "java/lang/IncompatibleClassChangeError",
    ),
    (
        "iconst_0\ninvokeinterface java/lang/Runnable.run:()V 1",
        "java/lang/VerifyError",
    ),
    (
        "aconst_null\ninvokeinterface java/lang/Runnable.none:()V 1",
        "java/lang/NoSuchMethodError",
    ),
    (
        "aconst_null\ninvokeinterface java/lang/Object.notify:()V 1",
        "java/lang/IncompatibleClassChangeError",
    ),
    (
        "aconst_null\ninvokeinterface Gone.none:()V 1",
        "java/lang/NoClassDefFoundError",
    ),
    (
        "lconst_0\ninvokestatic mvm/Sys.println:(I)V",
        "java/lang/VerifyError",
    ),
];

// What is left of the class whose `main` has this body.
fn report_of(alloc: Global, body: &str) -> Result<String, Fail> {
    let mut text = String::from_str(alloc, BEGINNING)?;
    text.push_str(body)?;
    text.push_str(END)?;
    let program = Program {
        classes: &[("Main", text.as_str())],
        main: "Main",
        args: &[],
        limits: Limits::defaults(),
    };
    Ok(String::from_str(alloc, run(alloc, &program)?.report.as_str())?)
}

// The report of a class whose `main` throws an object of this class, or nothing.
fn report_with(alloc: Global, thrown: &str) -> Result<String, AllocError> {
    if thrown.is_empty() {
        return String::from_str(alloc, "isolate 0 Main\nend exit 0\noutput 0\ndone 0\n");
    }
    let mut report = String::from_str(alloc, "isolate 0 Main\nend exit 1\nuncaught 0 ")?;
    report.push_str(thrown)?;
    report.push_str("\noutput 0\ndone 1\n")?;
    Ok(report)
}

// The bodies that do not throw what stands beside them, each with what it leaves.
pub(crate) fn wrong(alloc: Global, rows: &[(&str, &str)]) -> Result<String, Fail> {
    let mut wrong = String::new(alloc);
    for (body, thrown) in rows {
        let report = report_of(alloc, body)?;
        if report.as_str() != report_with(alloc, thrown)?.as_str() {
            wrong.push_str(body)?;
            wrong.push_str(": ")?;
            wrong.push_str(report.as_str())?;
        }
    }
    Ok(wrong)
}

#[test]
fn tests_arrays_in_order(rt: HostRuntime) -> Result<(), Fail> {
    assert_eq!(rt; wrong(rt.alloc(), &ARRAYS)?.as_str(), "");
    Ok(())
}

#[test]
fn tests_sizes_in_order(rt: HostRuntime) -> Result<(), Fail> {
    assert_eq!(rt; wrong(rt.alloc(), &SIZES)?.as_str(), "");
    Ok(())
}

#[test]
fn tests_casts_in_order(rt: HostRuntime) -> Result<(), Fail> {
    assert_eq!(rt; wrong(rt.alloc(), &CASTS)?.as_str(), "");
    Ok(())
}

#[test]
fn tests_fields_in_order(rt: HostRuntime) -> Result<(), Fail> {
    assert_eq!(rt; wrong(rt.alloc(), &FIELDS)?.as_str(), "");
    Ok(())
}

#[test]
fn tests_calls_in_order(rt: HostRuntime) -> Result<(), Fail> {
    assert_eq!(rt; wrong(rt.alloc(), &CALLS)?.as_str(), "");
    Ok(())
}
