use cy_io::{MemFiles, MemSink, SureFiles, SureSink};
use cyc_top::{Status, cyc};
use std::alloc::{AllocError, Global};
use std::test::Fail;
use thin_sound::thin;

const SOURCE: &[u8] = b"def f(a, b): return a + b\n";

const HEADER: &[u8] = b"#define PY_SSIZE_T_CLEAN
#include <Python.h>
typedef struct { PyObject *mv; char *buf; Py_ssize_t n[3]; Py_ssize_t s[3]; } cyc_view;
struct cyc_root { PyObject_HEAD const void *vt; };
static int cyc_fmt(const char *f, const char *set)
{
    if (f == NULL) f = \"B\";
    if (f[0] == '@') f = f + 1;
    return f[0] != 0 && f[1] == 0 && strchr(set, f[0]) != NULL;
}
PyObject *cyc_f_0_0(PyObject *, PyObject *);
";

const MODULE: &[u8] = b"#include \"cyc_set.h\"
static PyObject *cyc_m;
static PyObject *cyc_d;
static PyObject *cyc_b;
static int cyc_r;
PyObject *cyc_f_0_0(PyObject *p0, PyObject *p1)
{
    PyObject *r = NULL;
    PyObject *t0 = NULL;
    t0 = PyNumber_Add(p0, p1);
    if (t0 == NULL) goto L0;
    r = t0;
L0:
    return r;
}
static PyObject *cyc_w_0_0(PyObject *self, PyObject *const *args, Py_ssize_t nargs)
{
    PyObject *r = NULL;
    if (nargs != 2) goto L0;
    r = cyc_f_0_0(args[0], args[1]);
    return r;
L0:
    PyErr_SetString(PyExc_TypeError, \"f() takes 2 arguments\");
    return r;
}
static PyMethodDef cyc_md[] = {
    {\"f\", (PyCFunction)(void (*)(void))cyc_w_0_0, METH_FASTCALL, NULL},
    {NULL, NULL, 0, NULL}
};
static struct PyModuleDef cyc_def = { PyModuleDef_HEAD_INIT, \"m\", NULL, -1, cyc_md };
PyMODINIT_FUNC PyInit_m(void)
{
    PyObject *r = NULL;
    PyObject *t0 = NULL;
    PyObject *t1 = NULL;
    t0 = PyModule_Create(&cyc_def);
    if (t0 == NULL) goto L0;
    cyc_m = t0;
    t0 = PyModule_GetDict(cyc_m);
    Py_INCREF(t0);
    cyc_d = t0;
    t0 = PyImport_ImportModule(\"builtins\");
    if (t0 == NULL) goto L0;
    t1 = PyModule_GetDict(t0);
    Py_INCREF(t1);
    cyc_b = t1;
    Py_DECREF(t0);
    cyc_r = 1;
    Py_INCREF(cyc_m);
    r = cyc_m;
L0:
    return r;
}
";

fn texts(alloc: Global, words: &[&str]) -> Result<Vec<String>, AllocError> {
    let mut all = Vec::new(alloc);
    for word in words {
        all.push(String::from_str(alloc, word)?)?;
    }
    Ok(all)
}

fn run(alloc: Global, words: &[&str], files: &mut MemFiles) -> Result<Status, AllocError> {
    let words = texts(alloc, words)?;
    let mut out = MemSink::new(alloc, Vec::new(alloc));
    let mut err = MemSink::new(alloc, Vec::new(alloc));
    Ok(cyc(alloc, words.as_slice(), files, &mut out, &mut err))
}

#[test]
fn adds_two_objects(rt: HostRuntime) -> Result<(), Fail> {
    let mut files = MemFiles::new(rt.alloc(), Vec::new(rt.alloc()));
    files.add(b"src/m.pyx", SOURCE)?;
    let status = run(rt.alloc(), &["build", "src/m.pyx"], &mut files)?;
    assert_eq!(rt; status, Status::Done);
    assert_eq!(rt; files.get(b"cyc_set.h").ok_or("no header")?, HEADER);
    assert_eq!(rt; files.get(b"m.c").ok_or("no module")?, MODULE);
    let trees = thin(rt.alloc(), b"m", SOURCE)?.ok_or("not thin")?;
    assert_eq!(rt; trees.len(), 2);
    Ok(())
}

#[test]
fn failing_files(rt: HostRuntime) -> Result<(), Fail> {
    for (call, wanted) in [
        (1, Status::ReadFault(0)),
        (2, Status::WriteFault),
        (3, Status::WriteFault),
        (4, Status::Done),
    ] {
        let mut files = MemFiles::new(rt.alloc(), vec![in rt.alloc(); call]?);
        files.add(b"m.pyx", SOURCE)?;
        let status = run(rt.alloc(), &["build", "m.pyx"], &mut files)?;
        assert_eq!(rt; status, wanted, "call {call}");
        assert_eq!(rt; files.get(b"cyc_set.h").is_some(), call > 2, "call {call}");
        assert_eq!(rt; files.get(b"m.c").is_some(), call > 3, "call {call}");
        assert_eq!(rt;
            files.get(b"m.pyx").ok_or("no source")?,
            SOURCE,
            "call {call}"
        );
    }
    Ok(())
}

#[test]
fn words_of_no_command(rt: HostRuntime) -> Result<(), Fail> {
    let table: [&[&str]; 14] = [
        &[],
        &["build"],
        &["m.pyx"],
        &["build", "--x", "m.pyx"],
        &["build", "m.txt"],
        &["build", "m.pxd"],
        &["build", "m.pyx", "n.pyx"],
        &["build", ".pyx"],
        &["build", "src/.pyx"],
        &["build", "1m.pyx"],
        &["build", "-m.pyx"],
        &["build", "\u{e9}.pyx"],
        &["run", "m.c"],
        &["sample", "0"],
    ];
    for words in table {
        let mut files = MemFiles::new(rt.alloc(), Vec::new(rt.alloc()));
        assert_eq!(rt;
            run(rt.alloc(), words, &mut files)?,
            Status::Usage,
            "{words:?}"
        );
    }
    Ok(())
}

#[test]
fn missing_and_not_built(rt: HostRuntime) -> Result<(), Fail> {
    let words = texts(rt.alloc(), &["build", "gone.pyx"])?;
    let mut files = SureFiles::new(rt.alloc());
    let mut out = SureSink::new(rt.alloc());
    let mut err = SureSink::new(rt.alloc());
    let status = cyc(rt.alloc(), words.as_slice(), &mut files, &mut out, &mut err);
    assert_eq!(rt; status, Status::Missing(0));
    files.add(b"gone.pyx", b"def f(a): return a\n")?;
    let status = cyc(rt.alloc(), words.as_slice(), &mut files, &mut out, &mut err);
    assert_eq!(rt; status, Status::NotBuilt);
    assert_eq!(rt; status.number(), 11);
    assert_eq!(rt; out.held().len() + err.held().len(), 0);
    Ok(())
}
