// What other instructions throw, and where a value is of the wrong kind: bodies of `main`, each with the class of what it throws, or with none.
use crate::edge_rows::wrong;
use std::test::Fail;

// Division (6.5 under idiv, ldiv), athrow, monitors and waiting (6.5 under monitorenter and monitorexit; Java Language Specification, SE 8, 17.2).
const OTHERS: [(&str, &str); 33] = [
    ("iconst_1\niconst_0\nidiv", "java/lang/ArithmeticException"),
    ("iconst_1\niconst_0\nirem", "java/lang/ArithmeticException"),
    ("lconst_1\nlconst_0\nldiv", "java/lang/ArithmeticException"),
    ("lconst_1\nlconst_0\nlrem", "java/lang/ArithmeticException"),
    ("iconst_0\niconst_1\nidiv", ""),
    ("lconst_0\niconst_0\nidiv", "java/lang/VerifyError"),
    ("iconst_0\nlconst_0\nldiv", "java/lang/VerifyError"),
    ("aconst_null\nathrow", "java/lang/NullPointerException"),
    ("new java/lang/Object\nathrow", "java/lang/VerifyError"),
    ("iconst_0\nathrow", "java/lang/VerifyError"),
    ("iconst_1\nnewarray 10\nathrow", "java/lang/VerifyError"),
    ("new java/lang/Error\nathrow", "java/lang/Error"),
    (
        "aconst_null\nmonitorenter",
        "java/lang/NullPointerException",
    ),
    ("aconst_null\nmonitorexit", "java/lang/NullPointerException"),
    ("iconst_0\nmonitorenter", "java/lang/VerifyError"),
    ("lconst_0\nmonitorexit", "java/lang/VerifyError"),
    (
        "new java/lang/Object\nmonitorexit",
        "java/lang/IllegalMonitorStateException",
    ),
    ("new java/lang/Object\ndup\nmonitorenter\nmonitorexit", ""),
    (
        "new java/lang/Object\ndup\ndup\nmonitorenter\nmonitorexit\nmonitorexit",
        "java/lang/IllegalMonitorStateException",
    ),
    (
        "new java/lang/Object\ninvokevirtual java/lang/Object.notify:()V",
        "java/lang/IllegalMonitorStateException",
    ),
    (
        "new java/lang/Object\ninvokevirtual java/lang/Object.notifyAll:()V",
        "java/lang/IllegalMonitorStateException",
    ),
    (
        "new java/lang/Object\ninvokevirtual java/lang/Object.wait:()V",
        "java/lang/IllegalMonitorStateException",
    ),
    (
        "aconst_null\ninvokevirtual java/lang/Object.notify:()V",
        "java/lang/NullPointerException",
    ),
    (
        "aconst_null\ninvokevirtual java/lang/Object.wait:()V",
        "java/lang/NullPointerException",
    ),
    (
        "new java/lang/Object\ndup\ndup\nmonitorenter\ninvokevirtual java/lang/Object.notify:()V\nmonitorexit",
        "",
    ),
    (
        "new java/lang/Thread\ndup\ninvokespecial java/lang/Thread.<init>:()V\ndup\ninvokevirtual java/lang/Thread.start:()V\ninvokevirtual java/lang/Thread.start:()V",
        "java/lang/IllegalThreadStateException",
    ),
    (
        "invokestatic java/lang/Thread.currentThread:()Ljava/lang/Thread;\ninvokevirtual java/lang/Thread.start:()V",
        "java/lang/IllegalThreadStateException",
    ),
    (
        "new java/lang/Thread\ninvokevirtual java/lang/Thread.join:()V",
        "",
    ),
    (
        "ldc \"ab\"\niconst_1\niconst_0\ninvokevirtual java/lang/String.substring:(II)Ljava/lang/String;",
        "java/lang/StringIndexOutOfBoundsException",
    ),
    (
        "ldc \"ab\"\niconst_2\ninvokevirtual java/lang/String.charAt:(I)C",
        "java/lang/StringIndexOutOfBoundsException",
    ),
    (
        "ldc \"1a\"\ninvokestatic java/lang/Integer.parseInt:(Ljava/lang/String;)I",
        "java/lang/NumberFormatException",
    ),
    (
        "aconst_null\ninvokestatic java/lang/Integer.parseInt:(Ljava/lang/String;)I",
        "java/lang/NumberFormatException",
    ),
    (
        "new java/lang/String\ninvokevirtual java/lang/String.length:()I",
        "java/lang/VerifyError",
    ),
];

// A value of the wrong kind, none, too many, and locals (4.10.1 and 4.10.2.3): each is found where it is used.
const KINDS: [(&str, &str); 76] = [
    ("pop", "java/lang/VerifyError"),
    ("iconst_0\npop2", "java/lang/VerifyError"),
    ("lconst_0\npop", "java/lang/VerifyError"),
    ("lconst_0\npop2", ""),
    ("iconst_0\naconst_null\npop2", ""),
    ("iconst_0\nlconst_0\npop\npop2", "java/lang/VerifyError"),
    ("dup", "java/lang/VerifyError"),
    ("lconst_0\ndup", "java/lang/VerifyError"),
    ("lconst_0\ndup2", ""),
    ("iconst_0\ndup2", "java/lang/VerifyError"),
    ("iconst_0\niconst_0\ndup2\npop2\npop2", ""),
    ("iconst_0\ndup_x1", "java/lang/VerifyError"),
    ("lconst_0\niconst_0\ndup_x1", "java/lang/VerifyError"),
    ("lconst_0\niconst_0\ndup_x2", ""),
    ("iconst_0\nlconst_0\ndup_x2", "java/lang/VerifyError"),
    ("iconst_0\niconst_0\ndup_x2", "java/lang/VerifyError"),
    ("iconst_0\nlconst_0\ndup2_x1", ""),
    ("lconst_0\nlconst_0\ndup2_x1", "java/lang/VerifyError"),
    ("lconst_0\nlconst_0\ndup2_x2", ""),
    (
        "iconst_0\nlconst_0\niconst_0\ndup2_x1",
        "java/lang/VerifyError",
    ),
    ("iconst_0\nlconst_0\ndup2_x2", "java/lang/VerifyError"),
    ("iconst_0\niconst_0\nlconst_0\ndup2_x2", ""),
    ("iconst_0\nlconst_0\nswap", "java/lang/VerifyError"),
    ("iconst_0\nswap", "java/lang/VerifyError"),
    ("lconst_0\nlconst_0\nlconst_0\nlconst_0", ""),
    (
        "lconst_0\nlconst_0\nlconst_0\nlconst_0\niconst_0",
        "java/lang/VerifyError",
    ),
    (
        "lconst_0\nlconst_0\nlconst_0\niconst_0\nlconst_0",
        "java/lang/VerifyError",
    ),
    ("iload 1", "java/lang/VerifyError"),
    ("lload 1", "java/lang/VerifyError"),
    ("aload 1", "java/lang/VerifyError"),
    ("aload 0\npop", ""),
    ("iload 0", "java/lang/VerifyError"),
    ("iconst_0\nistore 1\naload 1", "java/lang/VerifyError"),
    ("iconst_0\nistore 1\nlload 1", "java/lang/VerifyError"),
    ("aconst_null\nastore 1\niload 1", "java/lang/VerifyError"),
    ("aconst_null\nistore 1", "java/lang/VerifyError"),
    ("iconst_0\nastore 1", "java/lang/VerifyError"),
    ("iconst_0\nlstore 1", "java/lang/VerifyError"),
    ("lconst_0\nistore 1", "java/lang/VerifyError"),
    ("lconst_0\nlstore 1\nlload 1", ""),
    ("lconst_0\nlstore 1\niload 1", "java/lang/VerifyError"),
    ("lconst_0\nlstore 1\niload 2", "java/lang/VerifyError"),
    ("lconst_0\nlstore 1\nlload 2", "java/lang/VerifyError"),
    (
        "lconst_0\nlstore 1\niconst_0\nistore 2\nlload 1",
        "java/lang/VerifyError",
    ),
    ("lconst_0\nlstore 1\niconst_0\nistore 1\niload 1", ""),
    (
        "lconst_0\nlstore 1\niconst_0\nistore 1\niload 2",
        "java/lang/VerifyError",
    ),
    (
        "lconst_0\nlstore 1\nlconst_0\nlstore 2\nlload 1",
        "java/lang/VerifyError",
    ),
    ("lconst_0\nlstore 1\nlconst_0\nlstore 2\nlload 2", ""),
    (
        "lconst_0\nlstore 2\nlconst_0\nlstore 1\niload 3",
        "java/lang/VerifyError",
    ),
    ("iinc 1 1", "java/lang/VerifyError"),
    ("aconst_null\nastore 1\niinc 1 1", "java/lang/VerifyError"),
    ("lconst_0\nlstore 1\niinc 1 1", "java/lang/VerifyError"),
    ("iconst_0\nistore 1\niinc 1 1\niload 1", ""),
    ("iconst_0\nlconst_0\niadd", "java/lang/VerifyError"),
    ("iconst_0\naconst_null\niadd", "java/lang/VerifyError"),
    ("iconst_0\niadd", "java/lang/VerifyError"),
    ("lconst_0\niconst_0\nladd", "java/lang/VerifyError"),
    ("lconst_0\nlconst_0\nlshl", "java/lang/VerifyError"),
    ("iconst_0\niconst_0\nlshl", "java/lang/VerifyError"),
    ("lconst_0\niconst_0\nlshl", ""),
    ("lconst_0\nineg", "java/lang/VerifyError"),
    ("iconst_0\nlneg", "java/lang/VerifyError"),
    ("lconst_0\ni2l", "java/lang/VerifyError"),
    ("iconst_0\nl2i", "java/lang/VerifyError"),
    ("lconst_0\niconst_0\nlcmp", "java/lang/VerifyError"),
    ("aconst_null\ni2b", "java/lang/VerifyError"),
    ("ireturn", "java/lang/VerifyError"),
    ("iconst_0\nireturn", "java/lang/VerifyError"),
    ("lconst_0\nlreturn", "java/lang/VerifyError"),
    ("aconst_null\nareturn", "java/lang/VerifyError"),
    (
        "iconst_0\ninvokestatic Main.wrong:(I)I",
        "java/lang/VerifyError",
    ),
    (
        "iconst_1\ninvokestatic Main.wrong:(I)I",
        "java/lang/VerifyError",
    ),
    (
        "iconst_2\ninvokestatic Main.wrong:(I)I",
        "java/lang/VerifyError",
    ),
    ("iconst_3\ninvokestatic Main.wrong:(I)I", ""),
    (
        "lconst_0\nlconst_0\nlconst_0\niconst_0\ninvokestatic Main.wide:()J",
        "java/lang/VerifyError",
    ),
    (
        "lconst_0\nlconst_0\nlconst_0\ninvokestatic Main.wide:()J",
        "",
    ),
];

#[test]
fn tests_others_in_order(rt: HostRuntime) -> Result<(), Fail> {
    assert_eq!(rt; wrong(rt.alloc(), &OTHERS)?.as_str(), "");
    Ok(())
}

#[test]
fn tests_kinds(rt: HostRuntime) -> Result<(), Fail> {
    assert_eq!(rt; wrong(rt.alloc(), &KINDS)?.as_str(), "");
    Ok(())
}
